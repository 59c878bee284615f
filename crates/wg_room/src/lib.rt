//! The slots that are used and reserved at each unit, and whether a launch has room.
#![tactic(auto)]

mod room;

pub use room::Room;
