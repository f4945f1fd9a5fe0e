//! Sheet files: a view of a file's own bytes, and loading what they say.
#![tactic(auto)]

pub mod entry;
pub mod load;
pub mod records;
pub mod section;
pub mod view;
