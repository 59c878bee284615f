//! The walk of the checker over expressions: what each gives, and the rules that are broken in it.
#![tactic(auto)]

mod walk;

pub use walk::{operand, part};
