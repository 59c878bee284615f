//! The pick of the unit to launch next: the deepest that waits and has room, then the least.
#![tactic(auto)]

mod picker;
mod row;

pub use picker::Picker;
