//! How a sheet's installed tree lies, station by station.
#![tactic(auto)]

mod rooted;
pub mod shape;
