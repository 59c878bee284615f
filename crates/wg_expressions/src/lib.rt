//! Reads expressions.
#![tactic(auto)]

mod inner;
mod kind;
mod levels;
mod nesting;
mod operands;
mod operators;
mod postfix;
mod primes;

pub use kind::{ExprKind, VALUE_TYPES};
pub use nesting::expr;
pub use operators::value_type;
