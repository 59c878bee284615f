//! Numbers and names: what they give, and the rules that they break.
#![tactic(auto)]

mod literals;
mod names;

pub use literals::{number, text, truth};
pub use names::{name, zeros};
