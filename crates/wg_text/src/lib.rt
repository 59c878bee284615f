//! What texts are read with: cuts and pieces, numbers, names of HLSL, and values by names.
#![tactic(auto)]

mod cutting;
mod identifier;
mod name_map;
mod numbers;
mod pieces;
mod refusal;

pub use cutting::{Separator, cut};
pub use identifier::is_identifier;
pub use name_map::NameMap;
pub use numbers::{number, printed, word};
pub use pieces::Pieces;
pub use refusal::Refusal;

#[cfg(test)]
mod tests;
