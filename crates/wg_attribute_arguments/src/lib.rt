//! What the attributes of a list and their arguments tell.
#![tactic(auto)]

mod arguments;
mod modes;
mod names;
mod parameters;

pub use arguments::{count_in, groups_in, is_narrow};
pub use modes::{mode_named, mode_of};
pub use names::{first_named, has, is_same_name, small_letters};
pub use parameters::{is_grid_field, is_uint_up_to_3, kind_of};
