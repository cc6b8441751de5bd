//! Lemmas on the definitions of `mc_stream`, which several crates cite: how the bytes that an
//! output took add up, one push after another. Nothing here runs.
#![tactic(auto)]
