//! Reads a table of rows, each of them node code of a graph, and prints whether it is valid.
//!
//! The first line of a row is its title, and a line `end` ends it. The lines between hold the commands of `wg_listing`, with a `;`
//! between two; `graph` names the graph.
#![tactic(auto)]

mod row;

use row::Row;
use std::io;

fn main(rt: HostRuntime) -> io::Result<()> {
    let mut row = Row::new(rt.alloc());
    for line in rt.lines(rt.alloc()) {
        let line = line?;
        if line.as_str() == "end" {
            print!(rt; "{}: ", row.title())?;
            println!(rt; "{}", row.into_answer(rt.alloc()))?;
            row = Row::new(rt.alloc());
        } else {
            row.take(line.as_str())?;
        }
    }
    Ok(())
}
