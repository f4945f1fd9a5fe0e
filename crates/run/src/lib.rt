//! Runs: any list of calls on one sheet, one after another, and the law that holds of all of them.
#![tactic(auto)]

pub mod calls;
pub mod making;
pub mod season;
