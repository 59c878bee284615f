use crate::answer::{Answer, answer_of};
use crate::command::{Command, command_of};
use crate::settings::{Settings, settings_of};
use std::alloc::{AllocError, Global};

/// What a line of a row is.
#[derive(Clone, Copy)]
enum Part {
    Title,
    Settings,
    Script,
    Commands,
}

/// The lines of a row so far.
#[derive(Drop)]
pub struct Row {
    part: Part,
    title: String,
    settings: Option<Settings>,
    script: String,
    commands: Vec<Command>,
}

impl Row {
    pub fn new(alloc: Global) -> Row {
        Row {
            part: Part::Title,
            title: String::new(alloc),
            settings: None,
            script: String::new(alloc),
            commands: Vec::new(alloc),
        }
    }

    pub fn title(&self) -> &str {
        self.title.as_str()
    }

    pub fn answer(&self, alloc: Global) -> Answer {
        answer_of(
            alloc,
            self.settings,
            self.script.as_bytes(),
            self.commands.as_slice(),
        )
    }

    fn add_command(&mut self, line: &str) -> Result<(), AllocError> {
        if let Some(command) = command_of(line) {
            self.commands.push(command)?;
        }
        Ok(())
    }

    /// Takes a line of its part.
    fn add(&mut self, line: &str) -> Result<(), AllocError> {
        match self.part {
            Part::Title => {
                self.title.push_str(line)?;
                self.part = Part::Settings;
            }
            Part::Settings => {
                self.settings = settings_of(line);
                self.part = Part::Script;
            }
            Part::Script => {
                self.script.push_str(line)?;
                self.script.push('\n')?;
            }
            Part::Commands => self.add_command(line)?,
        }
        Ok(())
    }

    /// Takes a line, and tells whether it ends the row.
    pub fn take(&mut self, line: &str) -> Result<bool, AllocError> {
        if line == "end" {
            return Ok(true);
        }
        if line == "core" {
            self.part = Part::Commands;
        } else if !line.is_empty() {
            self.add(line)?;
        }
        Ok(false)
    }
}
