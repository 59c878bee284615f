//! What the language's words stand for in calls: intrinsics, interlocked forms, barriers and their flags, and methods of objects.
#![tactic(auto)]

mod builtins;
mod flags;
mod methods;

pub use builtins::builtin_named;
pub use flags::flag_named;
pub use methods::method_of;
