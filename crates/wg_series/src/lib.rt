//! Chains of operators, `?:` and constructors as parts, and what they are to a barrier.
#![tactic(auto)]

mod chains;
mod choices;
mod flags;

pub use chains::{Series, begun, ended, next};
pub use choices::{bracketed, chosen, constructed};
pub use flags::{any_flag, flag};
