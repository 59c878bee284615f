//! The code of a typed text's expressions, and the law that it does what they mean.
#![tactic(auto)]

mod law;
mod places;

pub use law::expressions_keep_their_meaning;
pub use places::{Space, Where};
