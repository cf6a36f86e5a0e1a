//! Which scenes are valid.
#![tactic(auto)]

mod paths;
mod places;
mod validity;

pub use validity::{check, check_judged};
