//! A journal's replay on the machine, launch line by launch line, each of them judged.
#![tactic(auto)]

mod ran;
mod replay;

pub use ran::{Ran, run_entry};
pub use replay::{LineFault, Replay};
