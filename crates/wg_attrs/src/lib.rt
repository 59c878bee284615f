//! The attributes of a typed text: the first rule that they break, or what they say of each node.
#![tactic(auto)]

mod fault;
mod reading;

pub use fault::AttrFault;
pub use reading::read_attrs;
