//! Reads a table of texts, and prints how each is cut into tokens, or whether the grammar has it.
//!
//! The first line of a row is its title. The text's lines follow, and then a line that ends the row: `cut` asks for the
//! tokens, `parse` for the grammar. Empty lines say nothing.
#![tactic(auto)]

mod answer;
mod row;

use row::Row;
use std::io;

fn main(rt: HostRuntime) -> io::Result<()> {
    let mut row = Row::new(rt.alloc());
    for line in rt.lines(rt.alloc()) {
        if let Some(asked) = row.take(line?.as_str())? {
            println!(rt; "{}: {}", row.title(), row.answer(rt.alloc(), asked))?;
            row = Row::new(rt.alloc());
        }
    }
    Ok(())
}
