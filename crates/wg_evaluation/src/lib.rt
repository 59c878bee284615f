//! What the expressions and calls of a typed text give on a lane, computed by walking the typed tree: slow and plain.
#![tactic(auto)]

mod calls;
mod expr;

pub use calls::{Calls, Run, function_at};
pub use expr::{call, spot, value, word};
