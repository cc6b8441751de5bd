//! Tests of the network through what its crate makes public: listeners and mailboxes that are test
//! doubles, and clients over sockets on loopback. They are in a crate above the one that they test,
//! since a crate with tests is proved twice.
#![tactic(auto)]

#[cfg(test)]
mod admins;
#[cfg(test)]
mod apart;
#[cfg(test)]
mod clients;
#[cfg(test)]
mod flows;
#[cfg(test)]
mod holding;
#[cfg(test)]
mod house;
#[cfg(test)]
mod leaving;
#[cfg(test)]
mod logs;
#[cfg(test)]
mod pairing;
#[cfg(test)]
mod reserves;
#[cfg(test)]
mod signals;
#[cfg(test)]
mod visits;
