//! What attributes that break no rule say keeps the limits that a good shape needs.
#![tactic(auto)]

mod law;

pub use law::{
    right_attributes_are_good, sound_texts_are_sized, well_typed_attributes_are_good,
    well_typed_keeps_the_rest,
};
