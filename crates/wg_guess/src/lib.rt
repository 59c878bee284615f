//! A launch run ahead over a view: what it read, what it would write, and for which buffers that is true.
#![tactic(auto)]

mod guesses;
mod make;
mod touched;
mod trial;

pub use guesses::Guess;
pub use make::guess;
