//! Reads a table of rows, each of them a launch, turns and buffers, and prints what a guess of the launch over the buffers tells.
//!
//! The first line of a row is its title. A line `form`, `add`, `double` or `count` says what the launch does, `turns` how many
//! turns it may make, `over` the two buffers that it is run ahead over, and `later` buffers that its guess is asked to agree
//! with. A line `end` ends the row. Empty lines say nothing.
#![tactic(auto)]

mod answer;
mod buffers;
mod deed;
mod row;
mod told;

use row::Row;
use std::io;

fn main(rt: HostRuntime) -> io::Result<()> {
    let mut row = Row::new(rt.alloc());
    for line in rt.lines(rt.alloc()) {
        if row.take(rt.alloc(), line?.as_str())? {
            println!(rt; "{}: {}", row.title(), row.answer(rt.alloc()))?;
            row = Row::new(rt.alloc());
        }
    }
    Ok(())
}
