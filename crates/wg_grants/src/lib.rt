//! What a launch's requests were granted: the words of all new records in one block, and a table from handle and lane to the latest grant.
#![tactic(auto)]

mod grants;
mod lists;
mod rows;
mod spans;

pub use grants::{GrantTable, table_of};
