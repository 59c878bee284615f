//! Small bodies that do one interlocked form, with a graph to run them on.
#![tactic(auto)]

mod exchangers;
mod form;
mod graph;
mod work;

pub use exchangers::Exchangers;
pub use form::{Before, Form};
pub use graph::{form_launch, forms};
