//! What a journal is worth: whether it is the report of a run, a prefix of one, or where it goes wrong.
#![tactic(auto)]

mod buffers;
mod done;
mod launches;
mod stops;
mod tails;
mod verdict;
mod verifying;

pub use verdict::Verdict;
pub use verifying::verify;
