//! Values as a running lane keeps them: words, what operators and calls make of them, where they stand, and requests.
#![tactic(auto)]

mod conversions;
mod extents;
mod intrinsics;
mod marks;
mod operators;
mod place;
mod requests;
mod structs;
mod wide;
mod words;
mod zeros;

pub use conversions::convert;
pub use extents::Piece;
pub use intrinsics::intrinsic;
pub use operators::{combine_all, prefix_all, step_all, truth_word};
pub use place::{
    Setting, buffer_place, components, element, fetch, grant, handle_place, input_place, part,
    raw_words, write,
};
pub use requests::{ask, close, target};
pub use structs::{Structs, field_piece};
pub use words::{put_all, word_at, zero_words};
pub use zeros::{first_variables, parameter_size, zero_value};
