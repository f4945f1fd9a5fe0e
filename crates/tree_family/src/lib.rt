//! The family of a sheet's installed tree.
#![tactic(auto)]

mod marked;
pub mod meanings;
pub mod tree;
