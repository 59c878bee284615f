//! Cycles and depths of the nodes of a graph.
#![tactic(auto)]

mod closure;
mod cycles;
mod depths;
mod law;
mod rows;

pub use cycles::first_on_cycle;
pub use depths::{first_too_long, first_unit_depths};
pub use law::lower_levels_are_deeper;
pub use rows::{Flags, Rows, leads};
