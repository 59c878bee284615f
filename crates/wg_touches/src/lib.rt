//! Tells whether a text is quiet, and whether it is additive.
#![tactic(auto)]

mod expressions;
mod graphs;
mod statements;
mod texts;

pub use graphs::additive;
pub use texts::is_quiet;
