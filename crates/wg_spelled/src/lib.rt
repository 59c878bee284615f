//! What the trees of texts are: each vector that is written has 2 to 4 components, and each number is below 2 ^ 64.
#![tactic(auto)]

mod law;

pub use law::spelled_trees_are_written;
