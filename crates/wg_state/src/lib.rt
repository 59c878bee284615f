//! What the lanes of a launch share while it runs, with its turns, its requests and what it sends.
#![tactic(auto)]

mod lanes;
mod world;

pub use lanes::{coordinates, dispatch_place};
pub use world::{Grant, Request, World};
