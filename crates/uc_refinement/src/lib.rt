//! The refinement: what all workers of a log have done, by their calls on threads of their own, is a
//! run of the core, the machine of the headline, with what each of them has put into its cells and
//! replayed. Begin with `all_workers_run_the_core`. Nothing here runs.
#![tactic(auto)]

pub use laws::{
    all_workers_run_the_core, nothing_is_decided_behind_all, replies_are_those_of_the_run,
    settled_commands_are_replayed,
};

pub mod laws;
