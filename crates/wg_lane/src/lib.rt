//! Runs a body of node code on a frame of its lane, over any memory.
#![tactic(auto)]

mod lane;

pub use lane::run_lane;
