//! Which expressions of an entry function have one value on all lanes of a launch.
#![tactic(auto)]

mod law;
mod setting;
mod uniform;

pub use law::{lanes_begin_alike, lanes_stay_alike};
pub use setting::Setting;
pub use uniform::{is_uniform, is_uniform_in};
