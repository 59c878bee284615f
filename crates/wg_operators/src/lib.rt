//! Operators on parts: what they give, and the rules that they break.
#![tactic(auto)]

/// What is there, or the end of the function: nothing comes of nothing.
macro_rules! given {
    ($value:expr) => {
        match $value {
            Some(value) => value,
            None => return Ok(None),
        }
    };
}

mod chains;
mod choices;
mod prefixes;

pub use chains::{Chained, Run, begun, ended, link};
pub use choices::choice;
pub use prefixes::{cast, prefix};
