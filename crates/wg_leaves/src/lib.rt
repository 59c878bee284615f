//! Runs the operations of node code that hold no others and call no function, over any memory, without tests of what they name.
#![tactic(auto)]

mod leaves;
mod sure;

pub use leaves::run_leaf;
