//! Kinds of amount: what the method asks of one, and the two kinds that bills use.
#![tactic(auto)]

// One type `Parts<const N: usize>` in place of the two would leave the parts without names, and an
// amount of no parts, at which the law `some_part` fails, could be written.

pub mod cents;
pub mod cents_minutes;
pub mod kind;
pub mod laws;
pub mod limit;
pub mod word;
