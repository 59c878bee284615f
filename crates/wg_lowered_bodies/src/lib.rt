//! The code of the bodies of functions, and the law that it does what they mean.
#![tactic(auto)]

mod law;

pub use law::bodies_keep_their_meaning;
