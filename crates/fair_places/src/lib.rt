//! Places that holders share, of which some are kept for each: a holder takes those above its own
//! reserve only while the others' unused reserves are left.
#![tactic(auto)]

mod fair_places;
pub mod laws;

pub use fair_places::FairPlaces;
