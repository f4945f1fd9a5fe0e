//! Quotes: the least total change of the prices under which the installed tree is a cheapest one.
#![tactic(auto)]

pub mod call;
pub mod finding;
pub mod memory;
pub mod revising;
pub mod tree_cost;
