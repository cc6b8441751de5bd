//! Lists: one list begins with another, and the lemmas that several crates cite. Nothing here runs.
#![tactic(auto)]
