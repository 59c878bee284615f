//! How many slots a run needs at each unit, so that it never stands.
#![tactic(auto)]

mod answer;
mod laws;
mod planning;

pub use answer::{Plan, PlanFault};
pub use laws::good_shapes_are_small;
pub use planning::plan;
