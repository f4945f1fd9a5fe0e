//! Tests of the families through their public calls.
#![tactic(auto)]

#[cfg(test)]
mod choosing;
#[cfg(test)]
mod feeding;
#[cfg(test)]
mod making;
#[cfg(test)]
mod reaching;
#[cfg(test)]
mod routing;
#[cfg(test)]
mod tools;
#[cfg(test)]
mod tree;
