//! Types alone: which convert to which, and the types in which operators reckon.
#![tactic(auto)]

mod agreed;
mod fitting;
mod operators;
mod types;

pub use agreed::{common, common_numbers};
pub use fitting::{fits, same_type};
pub use operators::{operation_on, prefix_type, suited, suits, truths};
pub use types::{
    element_of, is_number, is_scalar, is_wide, is_word, number_type, numbers, of_value_type,
    size_of, truth_type, type_of, uint_type, uints,
};
