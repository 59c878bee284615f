//! What the attributes of a typed text say of its nodes.
#![tactic(auto)]

mod attributes;

pub use attributes::{Axes, GridField, NodeAttrs, NodesAttrs, OutputAttr, OutputAttrs};
