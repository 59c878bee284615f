//! Reads statements.
#![tactic(auto)]

mod body;
mod stmt;

pub use body::block;
