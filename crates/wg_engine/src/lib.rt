//! The calls of a core: any launches out, settled in any order, by a guess that still fits or by running the launch.
#![tactic(auto)]

mod engine;
mod keeping;
mod report;
mod stepping;

pub use engine::{Core, Opened, Settled};
pub use keeping::{Keeping, Out};
pub use report::{End, Report};
