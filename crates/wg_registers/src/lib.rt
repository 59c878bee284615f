//! What the operations of node code work on: registers, operators, new records, and what the lanes of a launch share.
#![tactic(auto)]

mod around;
mod grants;
mod operators;
mod outside;
mod pairs;
mod records;
mod sharing;
mod words;

pub use around::{Around, for_function, handle_output, owner};
pub use grants::{ask, close, has_target, latest_grant, zero_words};
pub use operators::{combine, combine_halves, exchange, interlocked_form, prefix, truth_word};
pub use outside::{Outside, SharedWords, put_shared};
pub use pairs::wide;
pub use records::{RecordSpot, put_record, record_word};
pub use sharing::{Sharing, input_count, input_word, put_input, sharing_of, world_of};
pub use words::{put, put_ranged, ranged_word, word};
