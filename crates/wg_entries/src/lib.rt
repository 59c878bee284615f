//! The entries of a script, at the places of their numbers, with a cursor at the first that waits.
#![tactic(auto)]

mod changes;
mod cursor;
mod waiting;

pub use cursor::EntryCursor;
