//! Cuts a text into tokens.
#![tactic(auto)]

mod characters;
mod comments;
mod fault;
mod front;
mod law;
mod marks;
mod numbers;
mod position;
mod slices;
mod text;

pub use fault::LexFault;
pub use law::what_cut_texts_keep;
pub use text::{MOST_BYTES, lex};
