//! A core without its buffers: the records that are not consumed, the launches that are out, and the journal.
#![tactic(auto)]

mod best;
mod finding;
mod fronts;
mod item;
mod launch;
mod laws;
mod pendings;
mod steps;

pub use best::best_unit;
pub use finding::find;
pub use fronts::{first_entries, first_waiting};
pub use item::Item;
pub use launch::{is_launch_of, launch_of};
pub use laws::{
    allowed_are_told, beginnings_are_seen, beginnings_keep, beginnings_keep_room, bests_are_chosen,
    births_add_lives, choices_are_next, else_nothing_is_chosen, entries_are_chosen,
    launches_are_told, openings_are_seen, openings_keep, openings_keep_counts, openings_keep_lives,
    openings_keep_room, placed_are_seen, settlings_are_seen, settlings_keep, settlings_keep_counts,
    settlings_leave_lives, unopened_wait,
};
pub use pendings::{entries_pending, first_item, slots_pending};
pub use steps::{count_all, drop_settled, open_all, open_in, write_words};
