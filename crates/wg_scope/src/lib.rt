//! Names in scope: what a name stands for, however many there are, and scopes that are closed again.
#![tactic(auto)]

mod scope;

pub use scope::Scope;

/// Where a statement or an expression stands, with its names in scope.
pub type Context = wg_typing::ContextOf<Scope>;
