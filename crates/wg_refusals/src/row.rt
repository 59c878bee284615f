use std::alloc::{AllocError, Global};
use wg_code::validate;
use wg_listing::{Graph, Listing, graph_named, shape_of};

/// The lines of a row so far.
#[derive(Drop)]
pub struct Row {
    title: String,
    graph: Graph,
    listing: Listing,
}

impl Row {
    pub fn new(alloc: Global) -> Row {
        Row {
            title: String::new(alloc),
            graph: Graph::Forms,
            listing: Listing::new(alloc),
        }
    }

    pub fn title(&self) -> &str {
        self.title.as_str()
    }

    /// Whether the code is valid.
    pub fn into_answer(self, alloc: Global) -> &'static str {
        let Row {
            title: _,
            graph,
            listing,
        } = self;
        let Ok(shape) = shape_of(alloc, graph) else {
            return "memory";
        };
        match validate(listing.into_code(shape)) {
            Some(_) => "valid",
            None => "refused",
        }
    }

    /// Takes a command.
    fn add(&mut self, command: &str) -> Result<(), AllocError> {
        let mut words = command.split_whitespace();
        let Some(name) = words.next() else {
            return Ok(());
        };
        if name == "graph" {
            self.graph = graph_named(words.next());
            return Ok(());
        }
        self.listing.add(name, &mut words)
    }

    /// Takes a line: the title, or commands.
    pub fn take(&mut self, line: &str) -> Result<(), AllocError> {
        if self.title.is_empty() {
            return self.title.push_str(line);
        }
        for command in line.split(';') {
            self.add(command)?;
        }
        Ok(())
    }
}
