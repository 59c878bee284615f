//! The script of a run as a text: the records that it hands in, and what the shared buffers hold at the start.
#![tactic(auto)]

mod checks;
mod draft;
mod fields;
mod lines;
mod names;
mod numbers;
mod reading;
mod script;

pub use reading::read_script;
pub use script::{Script, ScriptFault};
