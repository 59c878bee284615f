//! What the shape of a graph is, and rules on graphs.
#![tactic(auto)]

mod law;

pub use law::shapes_are_good;
