//! Fixed slots for the records of each unit: some wait in order of number, some are held by launches that are out.
#![tactic(auto)]

mod block;
mod places;
mod slots;
mod unit;

pub use slots::{Seen, Slots};
