//! Reads a table of rows, each of them the node code of a graph and a launch, and prints what a guess of the launch tells.
//!
//! The first line of a row is its title, and a line `end` ends it. The lines between hold commands, with a `;` between two: those of
//! `wg_listing`, and `graph`, `launch`, `input`, `turns`, `words` and `rest`.
#![tactic(auto)]

mod answer;
mod fitting;
mod row;
mod told;

use row::Row;
use std::io;

fn main(rt: HostRuntime) -> io::Result<()> {
    let mut row = Row::new(rt.alloc());
    for line in rt.lines(rt.alloc()) {
        let line = line?;
        if line.as_str() == "end" {
            print!(rt; "{}: ", row.title())?;
            println!(rt; "{}", row.into_answer(rt.alloc()))?;
            row = Row::new(rt.alloc());
        } else {
            row.take(rt.alloc(), line.as_str())?;
        }
    }
    Ok(())
}
