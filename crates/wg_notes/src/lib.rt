//! What a walk writes down, and parts of expressions as values.
#![tactic(auto)]

/// What is there, or the end of the function: nothing comes of nothing.
macro_rules! given {
    ($value:expr) => {
        match $value {
            Some(value) => value,
            None => return Ok(None),
        }
    };
}

mod acts;
mod notes;
mod parts;
mod typed;

pub use acts::{act_kind, call_of, is_output, is_sync, named_call};
pub use notes::{All, Maybe, Note, Noted, Notes, more};
pub use parts::{Valued, convert, fixed, typed_part, valued};
