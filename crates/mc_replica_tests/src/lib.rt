//! Tests of tables, replicas, reply text and streams, through what their crates make public: golden
//! examples, each constructor at its bounds, what memory that is there is used for. They are in one
//! crate: a crate with tests is proved twice, and each crate of tests loads its libraries anew.
#![tactic(auto)]

#[cfg(test)]
mod agreeing;
#[cfg(test)]
mod counts;
#[cfg(test)]
mod fragments;
#[cfg(test)]
mod hashing;
#[cfg(test)]
mod items;
#[cfg(test)]
mod model;
#[cfg(test)]
mod replica;
#[cfg(test)]
mod streams;
#[cfg(test)]
mod tables;
#[cfg(test)]
mod text;
