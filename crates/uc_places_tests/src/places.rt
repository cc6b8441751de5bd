//! Tests of the shared words: golden runs on typed seats, threads that help each other, and the
//! words of tickets.
pub mod moves;
#[cfg(test)]
mod rows;
#[cfg(test)]
mod threads;
#[cfg(test)]
mod words;
