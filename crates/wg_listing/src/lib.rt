//! Reads node code from commands, each of them a name and numbers, and has the graphs that it may be for.
//!
//! Most commands are operations, which go to the end of the open block. `yes`, `no`, `test`, `body` and `step` open a block; `if`
//! takes the last two, and `loop` the last three. `lanes` and `first` make the open block a part, `parts` opens a list of parts, and
//! `choose` takes the last two lists. `function` and `node` take what stands before them. `show` puts a register into the next word
//! of the first buffer. What is not known says nothing, and a number that is wanting is 0.
#![tactic(auto)]

mod blocks;
mod code;
mod graph;
mod operations;
mod records;
mod registers;

pub use code::Listing;
pub use graph::{Graph, graph_named, shape_of};
pub use registers::number;
