//! Event lists as text: the settings of a log and the events that happen to it one after another;
//! what they read as, what they do, and what is printed of that.
//!
//! An event list is lines of words. `specs/Line.antt` says what each line says, `specs/Place.antt`
//! which line may follow which, and `specs/Schedule.antt` what the whole list reads as: the
//! settings and the events, or the number of the first bad line. `specs/Needed.antt` says what a
//! `submit` stands for, `specs/Doing.antt` what a list does to a core, and `specs/Report.antt` what
//! is printed of a run.
#![tactic(auto)]

pub use picture::draw_items;
pub use running::{Outcome, run_items};
pub use schedule::{Action, Item, Reading, Schedule, read_schedule};
pub use watching::{Unwatched, Watch};

mod command;
mod draft;
pub mod laws;
mod line;
mod needed;
pub mod picture;
mod report;
pub mod running;
pub mod schedule;
pub mod watching;
mod words;
