//! Emits the code of which an expression's is made: words one by one, places, elements, operators and conversions.
#![tactic(auto)]

mod conversions;
mod each;
mod elements;
mod operators;
mod places;
mod registers;

pub use conversions::convert;
pub use each::{WordCode, emit_each, emit_words};
pub use elements::{Elements, element};
pub use operators::{OperatorForm, emit_pairs, form};
pub use places::{components, fetch, part};
pub use registers::{forward, register_at, run};
