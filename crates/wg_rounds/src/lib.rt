//! Runs a graph in rounds: so many launches are opened and guessed, then settled in the order of their opening.
#![tactic(auto)]

mod ahead;
mod laws;
mod rounds;

pub use ahead::Why;
pub use laws::{never_both, runs_out_once, stops_once};
pub use rounds::{Ended, run_rounds};
