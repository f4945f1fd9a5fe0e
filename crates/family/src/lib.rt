//! Families of station sets: what one has to answer, and the two that a caller can make.
#![tactic(auto)]

pub mod either;
pub mod feed;
pub mod interface;
pub mod reach;
pub mod route;
