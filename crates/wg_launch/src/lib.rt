//! What a launch of a node does by its typed text: its lanes, its phases and the records that it sends.
#![tactic(auto)]

mod group;
mod lanes;
mod phases;
mod sent;
mod start;

pub use group::launch;
