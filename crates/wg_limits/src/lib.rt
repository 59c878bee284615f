//! How deep a typed text goes: its functions call one another at most 16 deep, and its statements and expressions nest no
//! deeper than those of its source; its vectors have 2 to 4 components, and its literals words of 32 bits.
#![tactic(auto)]

mod law;

pub use law::{calls_are_few, nests_no_deeper, vectors_and_literals_are_small};
