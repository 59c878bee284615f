//! Reads a table of rows, each of them a graph, limits, a script and a journal, and prints what each row asks for.
//!
//! The first line of a row is its title and the second its settings. The script's lines follow, then a line `journal`,
//! the journal's lines, and a line that ends the row: `end` asks what the journal is worth, `print` whether it is printed
//! as it stands, `replay` what its launches leave by the plain program of the machine, and `read` what the script says.
//! Empty lines say nothing.
#![tactic(auto)]

mod answer;
mod left;
mod row;
mod settings;

use row::Row;
use std::io;

fn main(rt: HostRuntime) -> io::Result<()> {
    let mut row = Row::new(rt.alloc());
    for line in rt.lines(rt.alloc()) {
        if let Some(asked) = row.take(line?.as_str())? {
            println!(rt; "{}: {}", row.title(), row.answer(rt.alloc(), asked))?;
            row = Row::new(rt.alloc());
        }
    }
    Ok(())
}
