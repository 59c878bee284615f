use crate::answer::{Answer, Asked, answer_of};
use std::alloc::{AllocError, Global};

/// The lines of a row so far.
#[derive(Drop)]
pub struct Row {
    title: String,
    text: String,
}

/// What the last line of a row asks for.
fn asked_by(line: &str) -> Option<Asked> {
    if line == "cut" {
        return Some(Asked::Tokens);
    }
    if line == "parse" {
        return Some(Asked::Grammar);
    }
    None
}

impl Row {
    pub fn new(alloc: Global) -> Row {
        Row {
            title: String::new(alloc),
            text: String::new(alloc),
        }
    }

    pub fn title(&self) -> &str {
        self.title.as_str()
    }

    pub fn answer(&self, alloc: Global, asked: Asked) -> Answer {
        answer_of(alloc, asked, self.text.as_bytes())
    }

    /// Takes the title, or a line of the text.
    fn add(&mut self, line: &str) -> Result<(), AllocError> {
        if self.title.is_empty() {
            self.title.push_str(line)?;
        } else {
            self.text.push_str(line)?;
            self.text.push('\n')?;
        }
        Ok(())
    }

    /// Takes a line, and tells what is asked where it ends the row.
    pub fn take(&mut self, line: &str) -> Result<Option<Asked>, AllocError> {
        let asked = asked_by(line);
        if asked.is_none() && !line.is_empty() {
            self.add(line)?;
        }
        Ok(asked)
    }
}
