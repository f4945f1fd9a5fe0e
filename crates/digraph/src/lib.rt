//! Directed links between stations, the table that keeps them by number, and the stations reached along them.
#![tactic(auto)]

pub mod counting;
pub mod entering;
pub mod link;
pub mod search;
pub mod steps;
pub mod table;
