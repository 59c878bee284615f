//! What a core keeps between its calls: the slots of its records with their room, the groups of a record by a cursor and a
//! countdown, and a cursor over the entries.
#![tactic(auto)]

mod entries;
mod group;
mod laws;
mod opening;
mod records;
mod stock;

pub use entries::next_entry;
pub use group::group_at;
pub use laws::groups_are_counted;
pub use opening::Opening;
pub use records::front_records;
pub use stock::Stock;
