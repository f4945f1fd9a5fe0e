//! Tests of the tree family.
mod branches;
mod chains;
mod others;
mod three;
mod tools;
