//! The journal of a run, and its report as a text, both ways.
#![tactic(auto)]

mod fault;
mod fields;
mod lines;
mod names;
mod reading;
mod write;

pub use fault::JournalFault;
pub use reading::read;
pub use wg_machine::{BufferLine, BufferLines, Done, Entry, Journal, Stop, Tail};
pub use write::{done_text, line, print, stop_text};
