//! Lists of parts that have types, and constructors.
#![tactic(auto)]

/// What is there, or the end of the function: nothing comes of nothing.
macro_rules! given {
    ($value:expr) => {
        match $value {
            Some(value) => value,
            None => return Ok(None),
        }
    };
}

mod constructors;
mod lists;

pub use constructors::constructed;
pub use lists::{all_typed, convert_all, numbers_all};
