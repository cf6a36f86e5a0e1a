//! The order of reasons against a line, as equations of the definitions.
#![tactic(auto)]

pub mod reasons;
