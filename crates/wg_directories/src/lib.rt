//! Nodes of a graph by their names and indices.
#![tactic(auto)]

mod by_name;
mod of_output;

pub use by_name::{Directory, directory, find};
pub use of_output::{elements, has_absent};
