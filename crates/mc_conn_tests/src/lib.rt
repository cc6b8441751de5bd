//! Tests of connections over workers and their log, through what `mc_conn` makes public: streams in
//! pieces of any size, a queue above its bound, long blocks, faults, two tenants on one log, quotas
//! set by an administrator, a full log, and a command that is left to the next one.
#![tactic(auto)]

#[cfg(test)]
mod acts;
#[cfg(test)]
mod admin;
#[cfg(test)]
mod faults;
#[cfg(test)]
mod leaving;
#[cfg(test)]
mod lines;
#[cfg(test)]
mod logs;
#[cfg(test)]
mod pairs;
#[cfg(test)]
mod pieces;
#[cfg(test)]
mod queueing;
#[cfg(test)]
mod runs;
#[cfg(test)]
mod tallies;
#[cfg(test)]
mod tenants;
