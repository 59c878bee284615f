//! The machine's definitions as a plain program: whether entries are a run, and what the run leaves.
//!
//! It scans lists, and stays plain: faster cores are compared with it.
#![tactic(auto)]

mod bag;
mod changes;
mod grid;
mod laws;
mod replays;
mod steps;
mod traced;

pub use laws::one_run;
pub use replays::{Replayed, replay};
pub use steps::Rest;
