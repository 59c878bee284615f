//! What a core of the machine stands for while launches are out, and what opening and settling do to it.
#![tactic(auto)]

mod laws;
mod pending;

pub use laws::{
    beginnings_place, beginnings_stand, bytes_are_of_slots, choices_can_open, complete_is_idle,
    idle_is_complete, keepings_place, keepings_stand, launches_leave_each_list,
    live_bytes_fit_plan, never_blocked, only_units_are_needed, openings_leave, openings_place,
    openings_stand, outs_fit, peaks_fit_plan, records_have_one_place, settlings_free,
    settlings_leave, settlings_place, settlings_stand, stoppings_stand, taken_stay,
    unopened_is_whole, unshared_stay,
};
pub use pending::Pending;
