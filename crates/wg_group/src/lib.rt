//! Runs launches of checked node code: the parts of a node's code over the lanes of a group, over any memory.
#![tactic(auto)]

mod group;
mod lanes;
mod parts;

pub use group::run_group;
