//! Reads tokens as trees.
#![tactic(auto)]

mod item;
mod parameter;
mod parsing;

pub use parsing::{MOST_NESTING, ParseFault, ends_of_texts_fit, parse};
