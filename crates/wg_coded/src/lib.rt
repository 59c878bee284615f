//! Checked node code as the bodies of a graph, and that its launches keep to the laws of a launch.
#![tactic(auto)]

mod coded;
mod laws;

pub use coded::Coded;
pub use laws::code_keeps_laws;
