//! The top calls: from the words of a command line to a status.
#![tactic(auto)]

mod answer;
mod bodies;
mod call;
mod ending;
mod graph;
mod pair;
mod parts;
mod print;
mod run;
mod say;
mod script;
mod senders;
mod sending;
mod stages;
mod steps;
mod wiring;

pub use answer::{Answer, Input};
pub use call::{Status, steady};
pub use pair::{Pair, Pairs, Sends};

#[cfg(test)]
mod tests;
