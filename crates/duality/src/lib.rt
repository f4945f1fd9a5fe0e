//! Why a cheapest cover is cheapest: amounts packed on sets against the prices of links, links taken for sets,
//! and what both come to.
#![tactic(auto)]

pub mod theorems;
