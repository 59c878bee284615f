//! Values under tickets that rise.
#![tactic(auto)]

mod tickets;

pub use tickets::Tickets;
