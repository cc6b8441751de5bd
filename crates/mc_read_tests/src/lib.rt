//! Tests of the reader, through what its crate makes public: requests however their bytes are cut.
#![tactic(auto)]

#[cfg(test)]
mod administering;
#[cfg(test)]
mod counting;
#[cfg(test)]
mod reading;
