use crate::answer::{Answer, answer_of};
use crate::buffers::{Pair, read_pair};
use crate::deed::{Deed, read_deed};
use std::alloc::{AllocError, Global};

/// The lines of a row so far.
#[derive(Drop)]
pub struct Row {
    title: String,
    deed: Option<Deed>,
    turns: u64,
    over: Option<Pair>,
    later: Option<Pair>,
}

/// The first word of a line, and what follows it.
fn cut(line: &str) -> (&str, &str) {
    match line.split_once(' ') {
        Some((first, rest)) => (first, rest),
        None => (line, ""),
    }
}

impl Row {
    pub fn new(alloc: Global) -> Row {
        Row {
            title: String::new(alloc),
            deed: None,
            turns: 0,
            over: None,
            later: None,
        }
    }

    pub fn title(&self) -> &str {
        self.title.as_str()
    }

    pub fn answer(&self, alloc: Global) -> Answer {
        answer_of(alloc, self.deed, self.turns, &self.over, &self.later)
    }

    /// Takes a line that stands below the title.
    fn add(&mut self, alloc: Global, line: &str) -> Result<(), AllocError> {
        let (first, rest) = cut(line);
        if first == "turns" {
            self.turns = rest.parse::<u64>().unwrap_or(0);
        } else if first == "over" {
            self.over = Some(read_pair(alloc, rest)?);
        } else if first == "later" {
            self.later = Some(read_pair(alloc, rest)?);
        } else {
            self.deed = read_deed(line);
        }
        Ok(())
    }

    /// Takes a line, and tells whether it ends the row.
    pub fn take(&mut self, alloc: Global, line: &str) -> Result<bool, AllocError> {
        if line == "end" {
            return Ok(true);
        }
        if line.is_empty() {
            return Ok(false);
        }
        if self.title.is_empty() {
            self.title.push_str(line)?;
        } else {
            self.add(alloc, line)?;
        }
        Ok(false)
    }
}
