//! Tests of the cells: on one thread, and on threads that see the cells that another puts.
mod memory;
mod once;
mod rows;
mod sealed;
mod threads;
mod values;
