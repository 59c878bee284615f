//! The records in slots: which wait and have room, what a launch takes of them, and what comes and goes.
#![tactic(auto)]

mod hold;
mod places;
mod row;
mod rows;
mod steps;

pub use hold::Hold;
