//! Tests of the serving loop, also on hostile streams, and of whole runs of mc_stdin and
//! mc_schedule, through what their crates make public. They are in one crate of their own: a crate
//! with tests is proved twice, and each crate of tests loads its libraries anew.
#![tactic(auto)]

#[cfg(test)]
mod hostile;
#[cfg(test)]
mod programs;
#[cfg(test)]
mod runs;
#[cfg(test)]
mod schedule;
#[cfg(test)]
mod serving;
#[cfg(test)]
mod stdin;
