ghost use Rattle.std.specs.Prelude.{◌≡◌, [], None, length, map, replicate, IfOk};
ghost use Rattle.wg_script.specs.Reading.{Adds, entry_added, buffer_added, added};
ghost use Rattle.wg_script.specs.Names.{NamesShape};
ghost use Rattle.wg_script.specs.Script.{count_given, words_given};

use crate::checks::{check_buffer, check_entry};
use crate::lines::Line;
use crate::names::ScriptNames;
use crate::{Script, ScriptFault};
use std::alloc::{AllocError, Global};
use std::marker::Model;
use std::mem;
use wg_machine::{Entries, Sent, Shape};
use wg_words::{WordLists, Words};

/// What a buffer line gives: the buffer's count of words, and its first words.
#[derive(Debug, Drop)]
pub struct Given {
    pub count: u32,
    pub words: Words,
}

/// What the lines so far gave: the records, the line of each buffer, and the words of all buffers together.
#[derive(Debug, Drop)]
pub struct Draft {
    entries: Entries,
    given: Vec<Option<Given>>,
    asked: u64,
}

impl Model for Draft {
    ghost use Rattle.std.specs.Prelude.{◌≤◌};
    ghost use Rattle.wg_words.specs.declared.limits.TheConstants.{MOST_ALL_BUFFER_WORDS};
    ghost use Rattle.wg_script.specs.Reading.{Sofar};

    ghost Value = { Sofar };

    ghost view = { λ d. record { entries = d.entries; given = d.given.items; asked = d.asked } };

    ghost invariant = { λ d. d.asked ≤ MOST_ALL_BUFFER_WORDS };
}

impl Draft {
    /// Nothing, of so many buffers.
    pub fn new(alloc: Global, buffers: usize) -> Result<Draft, AllocError>
        ensures { IfOk result (λ draft. draft ≡ record { entries = []; given = replicate buffers None; asked = 0 }) }
    {
        let mut given = Vec::new(alloc);
        for _ in 0..buffers {
            given.push(None)?;
        }
        Ok(Draft {
            entries: Entries::new(alloc),
            given,
            asked: 0,
        })
    }

    fn add_entry(
        &mut self,
        shape: &Shape,
        target: Option<Option<u32>>,
        words: Words,
        line: u64,
    ) -> Result<(), ScriptFault>
        ensures { Adds result self.new (entry_added shape.now target words line self.old) }
    {
        let unit = check_entry(shape, target, words.as_slice(), self.entries.len(), line)?;
        self.entries.push(Sent { unit, words })?;
        Ok(())
    }

    fn add_buffer(
        &mut self,
        place: Option<usize>,
        count: u32,
        words: Words,
        line: u64,
    ) -> Result<(), ScriptFault>
        ensures { Adds result self.new (buffer_added place count words line self.old) }
    {
        let place = check_buffer(
            self.given.as_slice(),
            place,
            count,
            words.as_slice(),
            self.asked,
            line,
        )?;
        let _ = mem::replace(&mut self.given[place], Some(Given { count, words }));
        self.asked += u64::from(count);
        Ok(())
    }

    /// Takes a line in. After an error the draft is only dropped.
    pub fn add(
        &mut self,
        alloc: Global,
        shape: &Shape,
        names: &ScriptNames,
        said: Line,
        line: u64,
    ) -> Result<(), ScriptFault>
        requires { NamesShape shape.now names.now }
        ensures { Adds result self.new (added shape.now line self.old said) }
    {
        match said {
            Line::Nothing => Ok(()),
            Line::Entry { name, index, words } => {
                let target = names.node(alloc, name.as_slice(), index)?;
                self.add_entry(shape, target, words, line)
            }
            Line::Buffer { name, count, words } => {
                self.add_buffer(names.buffer(name.as_slice()), count, words, line)
            }
        }
    }

    /// The script of all lines.
    pub fn finish(self, alloc: Global) -> Result<Script, AllocError>
        ensures { IfOk result (λ script. script ≡ record { entries = self.entries; lengths = map count_given self.given; start = map words_given self.given }) }
    {
        let Draft { entries, given, .. } = self;
        let mut lengths = Words::new(alloc);
        let mut start = WordLists::new(alloc);
        for slot in given {
            let (count, words) = match slot {
                Some(Given { count, words }) => (count, words),
                None => (0, Words::new(alloc)),
            };
            lengths.push(count)?;
            start.push(words)?;
        }
        Ok(Script {
            entries,
            lengths,
            start,
        })
    }
}
