//! The typed form of a text is sound: each number in it names something of the type that stands there, and each operand has the type that its operator takes.
#![tactic(auto)]

mod law;

pub use law::{
    buffers_are_few, fields_by_first_place, fields_lie_within, literals_fit, outputs_are_few,
    shared_words_are_few, shared_words_by_total, typed_is_sound, types_stand,
};
