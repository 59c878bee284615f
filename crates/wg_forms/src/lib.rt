//! What follows a value, from left to right: members, elements, and what the forms so far give.
#![tactic(auto)]

/// What is there, or the end of the function: nothing comes of nothing.
macro_rules! given {
    ($value:expr) => {
        match $value {
            Some(value) => value,
            None => return Ok(None),
        }
    };
}

mod elements;
mod following;
mod formed;
mod stopped;

pub use following::{index, member};
pub use formed::{Formed, before, begun, ended};
pub use stopped::act_before;
