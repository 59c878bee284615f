//! The units of a graph by node and level: how many there are before each node, and to which of them an element sends.
#![tactic(auto)]

mod levels;
mod sending;

pub use levels::{Levels, levels_of};
pub use sending::{arrivals, own_number};
