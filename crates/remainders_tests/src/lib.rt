//! Tests of the links with nothing left through their public calls.
#![tactic(auto)]

#[cfg(test)]
mod comparing;
