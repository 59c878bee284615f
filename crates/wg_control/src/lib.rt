//! Runs the bodies of node code: operations in order, branches, loops and calls, over any memory, without tests of what they name.
#![tactic(auto)]

mod body;
mod simple;
mod start;

pub use body::run_body;
pub use start::{GroupSpot, around};
