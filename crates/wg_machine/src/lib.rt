//! The machine of a work graph: its shape, records and launches, what bodies mean, and what a run is.
#![tactic(auto)]

mod atomic;
mod bodies;
mod grid;
mod journal;
mod launch;
mod laws;
mod memory;
mod shape;
mod unit;

pub use bodies::{Bodies, Halt};
pub use grid::{count_groups, is_same_group, linear_place};
pub use journal::{BufferLine, BufferLines, Done, Journal, Stop, Tail};
pub use launch::{
    Bag, Entries, Entry, EntryList, Groups, Launch, Limits, Live, Made, Record, Records, Sent,
    SentList,
};
pub use laws::{
    allowed_is_launch_in, allowed_launches_fit, chains_are_short, each_once, entries_name_groups,
    few_are_sent, few_units, groups_lie_in_grids, launch_in_is_allowed, live_groups_lie_in_grids,
    needs_are_kept, no_group_twice, none_twice, peak_is_within_plan, runs_end_alike,
    runs_end_with_totals, runs_fit, sent_goes_deeper, slots_hold_bytes, something_has_room,
    steps_fit, strides_are_small,
};
pub use memory::{Atomic, Memory, ReadLog, Seen, View, Write, Writes};
pub use shape::{Kind, NodeName, NodeNames, Output, Outputs, Shape, Targets, Unit, Units};
