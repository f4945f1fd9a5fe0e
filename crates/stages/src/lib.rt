//! The method in three stages, as definitions, and why it is right: theory, no code.
#![tactic(auto)]
