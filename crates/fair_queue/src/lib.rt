//! A queue of keys that are ready to be served, fair to flows: each flow is served in its turn,
//! until its quantum is used up, however many keys wait in the others.
//!
//! This is surplus round-robin (H. Adiseshu, G. Parulkar and G. Varghese, SIGCOMM 1996), the form
//! of deficit round-robin (M. Shreedhar and G. Varghese, SIGCOMM 1995) for costs that are known
//! only once a key was served: what a turn takes beyond its quantum is taken off the flow's next
//! one, of which at least 1 is left.
#![tactic(auto)]

mod fair_queue;
mod flow;
pub mod laws;

pub use fair_queue::{FairQueue, Ready};
