ghost use Rattle.std.specs.Prelude.{◌≡◌, ◌≤◌, ℕ, [], All, length, slice_index, IsOk, IfOk, OnOk, OnErr};
ghost use Rattle.wg_machine.specs.Buffers.{buffer_at, with_word, written, all_written};
ghost use Rattle.wg_buffers.specs.Places.{page_place};
ghost use Rattle.wg_buffers.specs.Start.{started};

use crate::buffer::Buffer;
use crate::page::PAGE_WORDS;
use std::alloc::{AllocError, Global};
use std::marker::Model;
use wg_machine::{View, Write};
use wg_words::{TryCopy, Word, Words};

/// The shared buffers of a run.
#[derive(Debug, Drop)]
pub struct Buffers {
    buffers: Vec<Buffer>,
}

/// The buffers as they were at a moment.
#[derive(Debug, Drop)]
pub struct Snapshot {
    buffers: Buffers,
}

/// A page of a buffer.
#[derive(Clone, Copy, Debug, PartialEq, Eq)]
pub struct PagePlace {
    pub buffer: u32,
    pub page: u32,
}

impl Model for Buffers {
    ghost use Rattle.std.specs.Prelude.{ℕ, List};

    ghost Value = { List (List ℕ) };

    ghost view = { λ b. b.buffers.items };
}

impl Model for Snapshot {
    ghost use Rattle.std.specs.Prelude.{ℕ, List};

    ghost Value = { List (List ℕ) };

    ghost view = { λ s. s.buffers };
}

impl Buffers {
    /// Buffers of these lengths in words, each with its start words and then zeros.
    pub fn new(alloc: Global, lengths: &[u32], start: &[Words]) -> Result<Buffers, AllocError>
        requires count { length start.now ≡ length lengths.now }
        requires fit { (b : ℕ) → length (buffer_at start.now b) ≤ slice_index lengths.now b }
        ensures { IfOk result (λ buffers. buffers ≡ started lengths.now start.now) }
    {
        let mut buffers = Vec::new(alloc);
        for (place, size) in lengths.iter().enumerate() {
            buffers.push(Buffer::new(alloc, *size, start[place].as_slice())?)?;
        }
        Ok(Buffers { buffers })
    }

    /// Makes writes in their order; one out of range does nothing.
    ///
    /// All memory is taken before the first word changes. Writes to one page that nobody shares are made in place;
    /// else each page that changes is built anew before any is installed.
    pub fn apply(&mut self, alloc: Global, writes: &[Write]) -> Result<(), AllocError>
        ensures ok { OnOk result (self.new ≡ all_written self.old writes.now) }
        ensures err { OnErr result (self.new ≡ self.old) }
        ensures empty { writes.now ≡ [] → IsOk result }
    {
        let Some(first) = writes.first() else {
            return Ok(());
        };
        let place = place_of(first);
        if writes.iter().all(|write| place_of(write) == place) {
            self.write_page(place, writes)
        } else {
            self.write_pages(alloc, writes)
        }
    }

    /// Writes that all go to one page of one buffer.
    fn write_page(&mut self, place: PagePlace, writes: &[Write]) -> Result<(), AllocError>
        requires { All (λ w. page_place w ≡ place) writes.now }
        ensures ok { OnOk result (self.new ≡ all_written self.old writes.now) }
        ensures err { OnErr result (self.new ≡ self.old) }
    {
        let buffer = place.buffer as usize;
        if buffer < self.buffers.len() {
            self.buffers[buffer].write_page(place.page, writes)?;
        }
        Ok(())
    }

    /// Writes to several pages, of which each that changes is a new one.
    fn write_pages(&mut self, alloc: Global, writes: &[Write]) -> Result<(), AllocError>
        ensures ok { OnOk result (self.new ≡ all_written self.old writes.now) }
        ensures err { OnErr result (self.new ≡ self.old) }
    {
        let mut next = self.copy(alloc)?;
        for write in writes {
            next.write(*write)?;
        }
        *self = next;
        Ok(())
    }

    /// The buffers as they are now. It shares the pages.
    pub fn snapshot(&self, alloc: Global) -> Result<Snapshot, AllocError>
        ensures { IfOk result (λ snapshot. snapshot ≡ self.now) }
    {
        Ok(Snapshot {
            buffers: self.copy(alloc)?,
        })
    }

    fn write(&mut self, write: Write) -> Result<(), AllocError>
        ensures ok { OnOk result (self.new ≡ written self.old write) }
        ensures err { OnErr result (self.new ≡ self.old) }
    {
        match write {
            Write::Set {
                buffer,
                word,
                value,
            } => self.set(buffer, word, value),
            Write::Add {
                buffer,
                word,
                value,
            } => {
                let old = self.word(buffer, word);
                self.set(buffer, word, old.wrapping_add(value))
            }
        }
    }

    fn set(&mut self, buffer: u32, word: u32, value: Word) -> Result<(), AllocError>
        ensures ok { OnOk result (self.new ≡ with_word self.old buffer word value) }
        ensures err { OnErr result (self.new ≡ self.old) }
    {
        let place = buffer as usize;
        if place < self.buffers.len() {
            self.buffers[place].set(word, value)?;
        }
        Ok(())
    }
}

impl TryCopy for Buffers {
    /// It shares the pages.
    fn copy(&self, alloc: Global) -> Result<Self, AllocError> {
        let mut buffers = Vec::with_capacity(alloc, self.buffers.len())?;
        for buffer in &self.buffers {
            buffers.push(buffer.copy(alloc)?)?;
        }
        Ok(Buffers { buffers })
    }
}

/// The page of a buffer to which a write goes.
fn place_of(write: &Write) -> PagePlace
    ensures { result ≡ page_place write.now }
{
    match *write {
        Write::Set { buffer, word, .. } | Write::Add { buffer, word, .. } => PagePlace {
            buffer,
            page: word / PAGE_WORDS as u32,
        },
    }
}

impl View for Buffers {
    ghost buffers = { λ b. b };

    fn length(&self, buffer: u32) -> u32 {
        self.buffers
            .get(buffer as usize)
            .map_or(0, |buffer| buffer.len())
    }

    fn word(&self, buffer: u32, word: u32) -> Word {
        self.buffers
            .get(buffer as usize)
            .map_or(0, |buffer| buffer.word(word))
    }
}

impl View for Snapshot {
    ghost buffers = { λ s. s };

    fn length(&self, buffer: u32) -> u32 {
        self.buffers.length(buffer)
    }

    fn word(&self, buffer: u32, word: u32) -> Word {
        self.buffers.word(buffer, word)
    }
}

#[cfg(test)]
mod tests {
    use super::*;
    use std::test::Fail;

    fn set(buffer: u32, word: u32, value: Word) -> Write {
        Write::Set {
            buffer,
            word,
            value,
        }
    }

    fn add(buffer: u32, word: u32, value: Word) -> Write {
        Write::Add {
            buffer,
            word,
            value,
        }
    }

    /// Four words of the first buffer, the last two on either side of a page's end, with its length.
    fn seen<V: View>(view: &V) -> ([Word; 4], u32) {
        let words = [
            view.word(0, 0),
            view.word(0, 1),
            view.word(0, 255),
            view.word(0, 256),
        ];
        (words, view.length(0))
    }

    #[test]
    fn writes_in_order_change_the_buffers_and_no_snapshot(rt: HostRuntime) -> Result<(), Fail> {
        // The writes, and the first buffer's words after them.
        let rows = [
            ([set(0, 1, 7), add(0, 1, 5)], [1, 12, 0, 0]),
            ([add(0, 1, 5), set(0, 1, 7)], [1, 7, 0, 0]),
            ([set(0, 256, 0xffff_ffff), add(0, 256, 2)], [1, 2, 0, 1]),
            ([set(0, 255, 8), add(0, 256, 9)], [1, 2, 8, 9]),
            ([set(0, 300, 9), set(2, 0, 9)], [1, 2, 0, 0]),
        ];
        for (writes, want) in rows {
            let alloc = rt.alloc();
            let start = [Words::from_slice(alloc, &[1, 2])?, Words::new(alloc)];
            let mut buffers = Buffers::new(alloc, &[300, 0], &start)?;
            let snapshot = buffers.snapshot(alloc)?;
            buffers.apply(alloc, &writes)?;
            assert_eq!(rt; seen(&buffers), (want, 300));
            assert_eq!(rt; seen(&snapshot), ([1, 2, 0, 0], 300));
        }
        Ok(())
    }
}
