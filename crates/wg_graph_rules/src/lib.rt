//! The rules on graphs, tried in their order.
#![tactic(auto)]

mod fault;
mod links;
mod lookups;
mod names;
mod outputs;
mod records;
mod rules;

pub use fault::GraphFault;
pub use lookups::{input_of, input_record, output_record};
pub use rules::{Examined, examine};
