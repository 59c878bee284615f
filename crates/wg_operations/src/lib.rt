//! The operations of node code that are more than a write of registers, each as its meaning has it: on what the lanes of a launch
//! share, on shared buffers, and the registers of a call. Code is run without tests of what it names.
#![tactic(auto)]

mod buffers;
mod calls;
mod end;
mod shared;

pub use buffers::{add_to_buffer, exchange_in_buffer, get_buffer, length_of_buffer, set_buffer};
pub use calls::{Spare, put_results, window};
pub use end::{End, goes_on, goes_through};
pub use shared::{
    Asked, Form, Place, Spot, complete, get_record, increment, input_count, request, set_input,
    set_record, shared_atomic,
};
