//! The live records of a journal's replay, by number: what a launch line names, and what it leaves.
#![tactic(auto)]

mod finding;
mod live;
mod slot;

pub use live::LiveRecords;
