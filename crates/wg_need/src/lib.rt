//! How many records a launch of each unit may send to each unit.
#![tactic(auto)]

mod sums;
mod table;

pub use table::{Need, Needs, needs_of};
