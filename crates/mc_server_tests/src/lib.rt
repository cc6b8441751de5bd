//! Tests of runs of wfmc that end before it serves. They are apart from those of the other programs,
//! which needn't wait for the server's crates.
#![tactic(auto)]

#[cfg(test)]
mod wfmc;
