//! Prints what launches of a small typed text do, and what requests leave of a budget.
#![tactic(auto)]

mod fork;
mod launches;
mod requests;

use launches::outcome_of;
use requests::{request, world};
use std::io;

/// Launches by their unit, and how many nodes of the graph have a body.
const LAUNCHES: [(u32, usize); 4] = [(0, 1), (1, 1), (1, 2), (2, 1)];

/// Requests, one after another, by their element and their number of records.
const REQUESTS: [(u32, u32); 5] = [(0, 3), (0, 3), (1, 1), (5, 0), (0, 1)];

fn main(rt: HostRuntime) -> io::Result<()> {
    let alloc = rt.alloc();
    for (unit, bodies) in LAUNCHES {
        println!(rt;
            "unit {unit} of {bodies} bodies: {}",
            outcome_of(alloc, unit, bodies)
        )?;
    }
    let mut world = world(alloc)?;
    for (element, amount) in REQUESTS {
        request(alloc, element, amount, &mut world)?;
        let (left, denied) = (world.left.as_slice(), world.denied);
        println!(rt; "{amount} records at element {element}: left {left:?}, denied {denied}")?;
    }
    Ok(())
}
