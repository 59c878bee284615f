//! A cursor over tokens, and lists that are read from it.
#![tactic(auto)]

mod closing;
mod cursor;
mod halt;
mod list;
pub mod symbols;
mod terminals;
mod turns;
pub mod words;

pub use closing::closed;
pub use cursor::Cursor;
pub use halt::Halt;
pub use list::{ElementReader, fitted, joined, many};
pub use terminals::{at_class, class, classes};
pub use turns::read_by_turns;
