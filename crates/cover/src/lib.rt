//! Covers: the cheapest links that enter every member of a family, found in three stages.
#![tactic(auto)]

pub mod call;
pub mod checks;
pub mod in_stages;
pub mod keeping;
pub mod memory;
pub mod packing;
pub mod question;
pub mod taking;
