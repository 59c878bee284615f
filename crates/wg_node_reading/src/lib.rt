//! Reads what the attributes of a text say of its nodes.
#![tactic(auto)]

mod axes;
mod budgets;
mod ids;
mod kinds;
mod nodes;
mod numbers;
mod parameters;

pub use nodes::read_nodes;
