//! What the programs do over streams, without the network: serving one client from standard input
//! to standard output, running an event list and reporting on it, reading a command line, and
//! reporting faults.
//!
//! `specs/Serving.antt` says what a client is sent, `specs/Options.antt` how a run of mc_stdin
//! ends, and `specs/Lists.antt` how a run of mc_schedule ends.
#![tactic(auto)]

pub use faults::{fail, tell_fault};
pub use hashing::random_hashing;
pub use mc_stream::{
    Input, InputStep, MemoryInput, MemoryOutput, Output, OutputStep, Pull, Push, ReadInput,
    WriteOutput,
};
pub use mc_write::fault_text;
pub use options::{DEFAULT_GENERATIONS, DEFAULT_PLACES, MAX_GENERATIONS};
pub use schedule::run_schedule;
pub use serving::serve_client;
pub use stdin::run_stdin;
pub use turning_over::{TurnOver, TurnOverAlone};
pub use uc_worker::Hashing;
pub use waiting::push_all;
pub use words::{
    answer_words, flag, flag_option, number, number_option, refuse_words, words_after_name,
};

mod faults;
mod generations;
mod hashing;
pub mod laws;
mod options;
mod schedule;
mod schedule_words;
mod serving;
mod stdin;
mod turning_over;
mod waiting;
mod words;
