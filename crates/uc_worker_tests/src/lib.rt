//! Tests of workers, through what their crates make public: threads that submit and meet, workers
//! that stop at any of their steps, and answers that are recomputed. They are in one crate above
//! those that they test: a crate with tests is proved twice, and each crate of tests loads its
//! libraries anew.
#![tactic(auto)]

#[cfg(test)]
mod alone;
#[cfg(test)]
mod answers;
#[cfg(test)]
mod asking;
#[cfg(test)]
mod clients;
#[cfg(test)]
mod closing;
#[cfg(test)]
mod flags;
#[cfg(test)]
mod four;
#[cfg(test)]
mod full;
#[cfg(test)]
mod generations;
#[cfg(test)]
mod held;
#[cfg(test)]
mod helping;
#[cfg(test)]
mod hundred;
#[cfg(test)]
mod meeting;
#[cfg(test)]
mod parts;
#[cfg(test)]
mod recomputing;
#[cfg(test)]
mod refused;
#[cfg(test)]
mod standing;
#[cfg(test)]
mod stopped;
#[cfg(test)]
mod texts;
