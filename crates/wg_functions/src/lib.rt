//! Calls of functions of the text: what they give, what is noted of them, and the variables that they change.
#![tactic(auto)]

mod changes;
mod passed;

pub use changes::{changed, root};
pub use passed::plain_called;
