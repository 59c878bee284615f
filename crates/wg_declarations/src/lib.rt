//! Reads types, attributes, declarations of variables, and steps.
#![tactic(auto)]

mod attribute;
mod declarations;
mod step;
mod type_names;

pub use attribute::attributes;
pub use declarations::{const_declaration, declaration, size};
pub use step::{STEP_STARTS, a_step, steps};
pub use type_names::{OBJECTS, TYPES, a_type, handle_object, parameter_object, type_argument};
