//! The keep of a core: the records that are not consumed, the launches that are out, and the journal.
#![tactic(auto)]

mod keep;
mod store;

pub use keep::Keep;
