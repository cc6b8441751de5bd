//! Tests of the core and its event lists, through what their crates make public: golden runs,
//! refusals, a second opinion on all states of a small core, what each line of a list means, reports
//! and pictures.
#![tactic(auto)]

#[cfg(test)]
mod bad_lines;
#[cfg(test)]
mod event_lists;
#[cfg(test)]
mod events;
#[cfg(test)]
mod lines;
#[cfg(test)]
mod pictures;
#[cfg(test)]
mod refusals;
#[cfg(test)]
mod reports;
#[cfg(test)]
mod rows;
#[cfg(test)]
mod states;
