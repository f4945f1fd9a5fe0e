//! What is left of each link's price while a cover is sought: the column of it, the links with nothing
//! left, and the link that holds a set down.
#![tactic(auto)]

pub mod column;
pub mod cost;
pub(crate) mod links;
pub mod tightest;
pub mod used_up;
