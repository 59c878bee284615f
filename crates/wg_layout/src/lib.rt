//! How values of HLSL types are laid out in words: sizes, the ranges of fields, and reads and writes in them.
#![tactic(auto)]

mod field;
mod law;
mod layouts;
mod parts;
mod sizes;

pub use field::{read_field, write_field};
pub use law::{structs_take_what_their_fields_take, values_hold_their_fields};
pub use layouts::layout;
pub use parts::{FieldRange, FieldRanges, Layout};
pub use sizes::Sizes;
