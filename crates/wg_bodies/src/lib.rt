//! Laws of the bodies of sound texts: of one lane the phases of a launch are the body run as one block, and a plain function asks
//! its setting for the structs alone.
#![tactic(auto)]

mod law;

pub use law::{
    one_lane_runs_one_block, plain_functions_ask_for_structs, plain_functions_have_no_objects,
};
