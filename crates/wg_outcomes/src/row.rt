use crate::answer::{Answer, answer_of};
use std::alloc::{AllocError, Global};
use std::str::SplitWhitespace;
use wg_listing::{Graph, Listing, graph_named, number};
use wg_machine::{Launch, Record, Records};
use wg_words::{Word, Words};

/// The lines of a row so far.
#[derive(Drop)]
pub struct Row {
    title: String,
    graph: Graph,
    listing: Listing,
    launch: Launch,
    turns: u64,
    first: Words,
    second: Words,
}

/// The words of the rest of a line.
fn read_words(alloc: Global, words: &mut SplitWhitespace<'_>) -> Result<Words, AllocError> {
    let mut list = Words::new(alloc);
    for word in words {
        list.push(word.parse::<Word>().unwrap_or(0))?;
    }
    Ok(list)
}

impl Row {
    pub fn new(alloc: Global) -> Row {
        Row {
            title: String::new(alloc),
            graph: Graph::Forms,
            listing: Listing::new(alloc),
            launch: Launch {
                unit: 0,
                records: Records::new(alloc),
                group: 0,
                grid: [1, 1, 1],
                last: false,
            },
            turns: 0,
            first: Words::new(alloc),
            second: Words::new(alloc),
        }
    }

    /// The row's title.
    pub fn title(&self) -> &str {
        self.title.as_str()
    }

    /// The answer to the row.
    pub fn into_answer(self, alloc: Global) -> Answer {
        let Row {
            title: _,
            graph,
            listing,
            launch,
            turns,
            first,
            second,
        } = self;
        answer_of(alloc, graph, listing, launch, turns, first, second)
    }

    fn push_input(
        &mut self,
        alloc: Global,
        words: &mut SplitWhitespace<'_>,
    ) -> Result<(), AllocError> {
        let number = self.launch.records.len() as u64;
        self.launch.records.push(Record {
            number,
            words: read_words(alloc, words)?,
        })
    }

    /// The unit, the group, its grid by x, y and z, and whether the launch is the last of its record.
    fn set_launch(&mut self, words: &mut SplitWhitespace<'_>) {
        self.launch.unit = number(words);
        self.launch.group = number(words);
        self.launch.grid = [number(words), number(words), number(words)];
        self.launch.last = number(words) != 0;
    }

    /// Takes a command.
    fn add(&mut self, alloc: Global, command: &str) -> Result<(), AllocError> {
        let mut words = command.split_whitespace();
        let Some(name) = words.next() else {
            return Ok(());
        };
        match name {
            "graph" => self.graph = graph_named(words.next()),
            "launch" => self.set_launch(&mut words),
            "input" => self.push_input(alloc, &mut words)?,
            "turns" => self.turns = u64::from(number(&mut words)),
            "words" => self.first = read_words(alloc, &mut words)?,
            "rest" => self.second = read_words(alloc, &mut words)?,
            _ => self.listing.add(name, &mut words)?,
        }
        Ok(())
    }

    /// Takes a line: the title, or commands.
    pub fn take(&mut self, alloc: Global, line: &str) -> Result<(), AllocError> {
        if self.title.is_empty() {
            return self.title.push_str(line);
        }
        for command in line.split(';') {
            self.add(alloc, command)?;
        }
        Ok(())
    }
}
