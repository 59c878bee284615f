//! What a text does to the shared buffers: which texts read none of their words, and which only add to them.
#![tactic(auto)]

mod law;

pub use law::additive_is_quiet;
