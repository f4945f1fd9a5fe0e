//! Text written into a caller's buffer of bytes.
#![tactic(auto)]

pub mod laws;
pub mod refusal_line;
pub mod text;
