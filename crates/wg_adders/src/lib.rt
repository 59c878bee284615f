//! Small bodies that show what the law on additive graphs asks: one that only adds and sends, and one that reads.
#![tactic(auto)]

mod adders;
mod doublers;
mod laws;

pub use adders::Adders;
pub use doublers::Doublers;
pub use laws::{adders_add, adders_keep_laws, doublers_do_not_add};
