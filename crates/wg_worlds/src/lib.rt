//! What the lanes of a launch share: as it begins, what holds of it at every moment whatever runs on them, and what a launch
//! that ends so made and keeps to.
#![tactic(auto)]

mod begin;
mod end;
mod laws;
mod sent;

pub use begin::first_world;
pub use end::made_by;
pub use laws::{
    completions_stay_lawful, each_request_has_its_grant, launches_begin_lawful,
    lawful_worlds_keep_laws, requests_stay_lawful, written_buffers_stay_lawful,
    written_inputs_stay_lawful, written_records_stay_lawful, written_words_keep_lengths,
};
pub use sent::all_sent;
