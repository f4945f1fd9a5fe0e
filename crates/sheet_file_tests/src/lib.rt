//! Tests of loading: sheet files written out byte for byte, and what loading each of them gives.
#![tactic(auto)]

#[cfg(test)]
mod files;
#[cfg(test)]
mod loads;
#[cfg(test)]
mod order;
#[cfg(test)]
mod refusals;
