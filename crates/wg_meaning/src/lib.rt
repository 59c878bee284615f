//! What the statements and functions of a typed text do on a lane, computed by walking the typed tree: slow and plain.
#![tactic(auto)]

mod depth;
mod functions;
mod step;
mod stmt;

pub use depth::{body, test};
