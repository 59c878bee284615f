//! The rules of attributes, 401 to 405, at each site of a typed text, and the first that it breaks.
#![tactic(auto)]

mod arguments;
mod before;
mod forms;
mod lacks;
mod names;
mod noted;
mod positions;
mod sites;
mod walk;

pub use walk::first_attribute_fault;
