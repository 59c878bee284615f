ghost use Rattle.std.specs.Prelude.{◌≡◌, ◌++◌, ◌∷◌, [], slice_set, IsTrue, IfOk, OnOk, refl};
ghost use Rattle.std.specs.List.{list_all};
ghost use Rattle.wg_machine.specs.Agreement.{has_seen};
ghost use Rattle.wg_machine.specs.Buffers.{word_at, with_word, written, all_written};
ghost use Rattle.wg_plain.specs.Sizes.{AreShort};

use std::alloc::{AllocError, Global};
use std::mem;
use wg_machine::{Atomic, Memory, Seen, Write};
use wg_words::{TryCopy, Word, WordLists, Words};

/// Shared buffers that change in place, with those at the start, what was read and what was written.
#[derive(Drop)]
pub struct Traced<'a> {
    alloc: Global,
    start: &'a [Words],
    buffers: Vec<Words>,
    log: Vec<Seen>,
    writes: Vec<Write>,

    ghost short: { AreShort start.now },
    ghost logged: { IsTrue (list_all (has_seen start.now) log.items) },
    ghost written: { buffers.items ≡ all_written start.now writes.items },
}

fn word_in(buffers: &[Words], buffer: u32, word: u32) -> Word
    ensures { result ≡ word_at buffers.now buffer word }
{
    match buffers.get(buffer as usize) {
        Some(words) => words.as_slice().get(word as usize).copied().unwrap_or(0),
        None => 0,
    }
}

fn words_with(words: Words, word: usize, value: Word) -> Words
    ensures { result ≡ slice_set words word value }
{
    let mut words = words.into_vec();
    if word < words.len() {
        words[word] = value;
    }
    Words::from_vec(words)
}

fn put(alloc: Global, buffers: &mut Vec<Words>, buffer: u32, word: u32, value: Word)
    ensures { buffers.new.items ≡ with_word buffers.old.items buffer word value }
{
    let b = buffer as usize;
    if b >= buffers.len() {
        return;
    }
    let words = mem::replace(&mut buffers[b], Words::new(alloc));
    buffers[b] = words_with(words, word as usize, value);
}

fn apply(alloc: Global, buffers: &mut Vec<Words>, write: Write)
    ensures { buffers.new.items ≡ written buffers.old.items write }
{
    match write {
        Write::Set {
            buffer,
            word,
            value,
        } => put(alloc, buffers, buffer, word, value),
        Write::Add {
            buffer,
            word,
            value,
        } => {
            let old = word_in(buffers.as_slice(), buffer, word);
            put(alloc, buffers, buffer, word, old.wrapping_add(value));
        }
    }
}

/// A copy of buffers.
pub fn copies(alloc: Global, buffers: &[Words]) -> Result<WordLists, AllocError>
    ensures { IfOk result (λ copied. copied ≡ buffers.now) }
{
    let mut copied = WordLists::new(alloc);
    for words in buffers {
        copied.push(words.copy(alloc)?)?;
    }
    Ok(copied)
}

impl<'a> Traced<'a> {
    /// A memory over buffers.
    pub fn new(alloc: Global, start: &'a [Words]) -> Result<Traced<'a>, AllocError>
        requires { AreShort start.now }
        ensures start { IfOk result (λ memory. memory.start.now ≡ start.now) }
        ensures log { IfOk result (λ memory. memory.log.items ≡ []) }
        ensures writes { IfOk result (λ memory. memory.writes.items ≡ []) }
    {
        let buffers = copies(alloc, start)?.into_vec();
        Ok(Traced {
            alloc,
            start,
            buffers,
            log: Vec::new(alloc),
            writes: Vec::new(alloc),
        })
    }

    fn see(&mut self, buffer: u32, word: u32) -> Result<(), AllocError>
        ensures start { OnOk result (self.new.start.now ≡ self.old.start.now) }
        ensures buffers { OnOk result (self.new.buffers.items ≡ self.old.buffers.items) }
        ensures writes { OnOk result (self.new.writes.items ≡ self.old.writes.items) }
        ensures log { OnOk result (self.new.log.items ≡ self.old.log.items ++ record { buffer = buffer; word = word; value = word_at self.old.start.now buffer word } ∷ []) }
    {
        let value = word_in(self.start, buffer, word);
        self.log.push(Seen {
            buffer,
            word,
            value,
        })?;
        Ok(())
    }

    fn write(&mut self, write: Write) -> Result<(), AllocError>
        ensures start { OnOk result (self.new.start.now ≡ self.old.start.now) }
        ensures log { OnOk result (self.new.log.items ≡ self.old.log.items) }
        ensures writes { OnOk result (self.new.writes.items ≡ self.old.writes.items ++ write ∷ []) }
    {
        self.writes.push(write)?;
        apply(self.alloc, &mut self.buffers, write);
        Ok(())
    }

    /// The buffers as they are now.
    pub fn into_buffers(self) -> WordLists
        ensures buffers { result ≡ all_written self.entry.start.now self.entry.writes.items }
        ensures log { IsTrue (list_all (has_seen self.entry.start.now) self.entry.log.items) }
    {
        let Traced {
            alloc: _,
            start: _,
            buffers,
            log: _,
            writes: _,
        } = self;
        WordLists::from_vec(buffers)
    }
}

impl<'a> Memory for Traced<'a> {
    ghost trace = { λ m. record { over = m.start.now; log = m.log.items; writes = m.writes.items } };

    ghost fits = { λ m. record { lengths = refl; log = m.logged } };

    fn length(&self, buffer: u32) -> u32 {
        match self.start.get(buffer as usize) {
            Some(words) => words.len() as u32,
            None => 0,
        }
    }

    fn load(&mut self, buffer: u32, word: u32) -> Result<Word, AllocError> {
        self.see(buffer, word)?;
        Ok(word_in(self.buffers.as_slice(), buffer, word))
    }

    fn store(&mut self, buffer: u32, word: u32, value: Word) -> Result<(), AllocError> {
        self.write(Write::Set {
            buffer,
            word,
            value,
        })?;
        Ok(())
    }

    fn add(&mut self, buffer: u32, word: u32, value: Word) -> Result<(), AllocError> {
        self.write(Write::Add {
            buffer,
            word,
            value,
        })?;
        Ok(())
    }

    fn interlocked(
        &mut self,
        op: Atomic,
        buffer: u32,
        word: u32,
        compare: Word,
        value: Word,
    ) -> Result<Word, AllocError> {
        self.see(buffer, word)?;
        let found = word_in(self.buffers.as_slice(), buffer, word);
        self.write(Write::Set {
            buffer,
            word,
            value: op.exchanged(found, compare, value),
        })?;
        Ok(found)
    }
}
