//! The shape of a text's graph, or the first rule on graphs that it breaks.
#![tactic(auto)]

mod bools;
mod budgets;
mod fields;
mod filling;
mod graph;
mod known;
mod sends;

pub use graph::build;
