//! Expressions of one layer as parts: numbers, names, prefixes and casts, and what they are to a barrier.
#![tactic(auto)]

mod parts;

pub use parts::{
    Pieces, Seen, another, casted, named, numbered, plain, prefixed, truths, written, zeroed,
};
