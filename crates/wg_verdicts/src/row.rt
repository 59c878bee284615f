use crate::answer::{Answer, Asked, answer_of};
use crate::settings::{Settings, settings_of};
use std::alloc::{AllocError, Global};

/// What a line of a row is.
#[derive(Clone, Copy)]
enum Part {
    Title,
    Settings,
    Script,
    Journal,
}

/// The lines of a row so far.
#[derive(Drop)]
pub struct Row {
    part: Part,
    title: String,
    settings: Option<Settings>,
    script: String,
    journal: String,
}

fn push_line(text: &mut String, line: &str) -> Result<(), AllocError> {
    text.push_str(line)?;
    text.push('\n')?;
    Ok(())
}

/// What the last line of a row asks for.
fn asked_by(line: &str) -> Option<Asked> {
    if line == "end" {
        return Some(Asked::Worth);
    }
    if line == "print" {
        return Some(Asked::Text);
    }
    if line == "replay" {
        return Some(Asked::Rest);
    }
    if line == "read" {
        return Some(Asked::Script);
    }
    None
}

impl Row {
    pub fn new(alloc: Global) -> Row {
        Row {
            part: Part::Title,
            title: String::new(alloc),
            settings: None,
            script: String::new(alloc),
            journal: String::new(alloc),
        }
    }

    pub fn title(&self) -> &str {
        self.title.as_str()
    }

    pub fn answer(&self, alloc: Global, asked: Asked) -> Answer {
        answer_of(
            alloc,
            self.settings,
            asked,
            self.script.as_bytes(),
            self.journal.as_bytes(),
        )
    }

    /// Takes a line of its part.
    fn add(&mut self, line: &str) -> Result<(), AllocError> {
        match self.part {
            Part::Title => {
                self.title.push_str(line)?;
                self.part = Part::Settings;
            }
            Part::Settings => {
                self.settings = settings_of(line);
                self.part = Part::Script;
            }
            Part::Script => push_line(&mut self.script, line)?,
            Part::Journal => push_line(&mut self.journal, line)?,
        }
        Ok(())
    }

    /// Takes a line, and tells what is asked where it ends the row.
    pub fn take(&mut self, line: &str) -> Result<Option<Asked>, AllocError> {
        let asked = asked_by(line);
        if asked.is_some() {
            return Ok(asked);
        }
        if line == "journal" {
            self.part = Part::Journal;
        } else if !line.is_empty() {
            self.add(line)?;
        }
        Ok(None)
    }
}
