//! The shared buffers of a run: lists of words that writes change.
#![tactic(auto)]

mod buffer;
mod buffers;
mod page;

pub use buffers::{Buffers, Snapshot};
