//! Reads a table of rows, each of them a graph, limits, a script and commands, and prints what a core answers to the commands.
//!
//! The first line of a row is its title and the second its settings. The script's lines follow, then a line `core` and the
//! commands: `open`, where the launch is guessed over the buffers of that moment; `settle T`, without a guess; `settle T by G`, with the
//! guess of the launch of ticket G; `random S N`, N of these chosen by a seed. A line `end` ends the row: what is out is settled, what is
//! left is run, and the journal is run again by the plain program of the machine. Empty lines say nothing.
#![tactic(auto)]

mod answer;
mod calls;
mod command;
mod finish;
mod row;
mod settings;
mod step;

use row::Row;
use std::io;

fn main(rt: HostRuntime) -> io::Result<()> {
    let mut row = Row::new(rt.alloc());
    for line in rt.lines(rt.alloc()) {
        if row.take(line?.as_str())? {
            println!(rt; "{}: {}", row.title(), row.answer(rt.alloc()))?;
            row = Row::new(rt.alloc());
        }
    }
    Ok(())
}
