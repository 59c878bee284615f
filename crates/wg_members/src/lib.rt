//! Members, components and elements of values that have types.
#![tactic(auto)]

/// What is there, or the end of the function: nothing comes of nothing.
macro_rules! given {
    ($value:expr) => {
        match $value {
            Some(value) => value,
            None => return Ok(None),
        }
    };
}

mod along;
mod members;

pub use along::{begin, begun, finish};
pub use members::{element, member};
