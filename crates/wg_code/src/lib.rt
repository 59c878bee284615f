//! Node code: numbered registers and structured control, what it means, its check, and the laws of checked code.
#![tactic(auto)]

mod checked;
mod code;
mod counts;
mod frame;
mod laws;
mod leaves;
mod nodes;
mod op;
mod scope;
mod valid;

pub use checked::{Code, validate};
pub use code::{Function, Functions, Handle, Handles, NodeCode, NodeCodes, Part, Parts, RawCode};
pub use frame::{Frame, Grants};
pub use laws::{bodies_go_through, never_wrong, tests_change_nothing};
pub use op::{Op, Ops};
