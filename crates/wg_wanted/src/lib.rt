//! Parts in the types that are wanted of them: goals, and the arguments of plain functions.
#![tactic(auto)]

/// What is there, or the end of the function: nothing comes of nothing.
macro_rules! given {
    ($value:expr) => {
        match $value {
            Some(value) => value,
            None => return Ok(None),
        }
    };
}

mod fitting;
mod passing;

pub use fitting::{all_are_typed, fit, fit_all, goal, goals, is_typed};
pub use passing::{is_fixed, is_given_back, plain};
