//! Emits the code of a typed text's expressions.
#![tactic(auto)]

mod expr;
mod leaves;
mod names;

pub use expr::{spot, value};
pub use leaves::{Spot, Value, scalar};
pub use names::{Names, Variables};
