//! Small bodies that count launches, with two graphs to run them on.
#![tactic(auto)]

mod counters;
mod graphs;

pub use counters::Counters;
pub use graphs::{sheets, splits};
