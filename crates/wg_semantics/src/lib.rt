//! What a typed text means: its expressions, statements and functions on a lane, and its launches.
#![tactic(auto)]

mod law;
mod state;

pub use law::callees_are_functions;
pub use state::{Body, Flow, Lane, Passed, Spot, State, Store};
