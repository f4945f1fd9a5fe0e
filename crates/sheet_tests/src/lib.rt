//! Tests of a sheet through its public calls.
#![tactic(auto)]

#[cfg(test)]
mod adding;
#[cfg(test)]
mod columns;
#[cfg(test)]
mod installing;
#[cfg(test)]
mod opening;
#[cfg(test)]
mod pricing;
#[cfg(test)]
mod tools;
#[cfg(test)]
mod withdrawing;
