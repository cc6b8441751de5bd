//! The theorem of this project for every log of a server. The laws of `uc_core` speak of a first
//! log, whose tables are empty; these speak of a log that is opened over any tables, as a later log
//! is opened over those that the log before has left. They say that a run of the log, as threads
//! make it, is a run of the core, and that the counts which the core shows are those of the events.
//! Nothing here runs.
#![tactic(auto)]

pub use core_run::a_run_of_the_log_is_one_of_the_core;
pub use counts::{shown_states_count_the_events, unannounced_tickets_have_no_entry};
pub use over::{
    empty_tables_are_the_first_logs, laws_over_tables, runs_over_tables_do_what_is_asked,
    two_worlds_over_tables,
};
pub use workers::only_workers_act;

pub mod core_run;
pub mod counts;
pub mod over;
pub mod workers;
