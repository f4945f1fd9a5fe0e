//! A directed link between two stations.

/// A link leads from its tail to its head. Stations are numbered from 0; station 0 is the base.
/// It takes any two numbers, for a caller may offer any: a function that needs them below 40 requires `Low`.
#[derive(Debug, Clone, Copy, PartialEq, Eq)]
pub struct Link {
    pub tail: u8,
    pub head: u8,
}
