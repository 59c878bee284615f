ghost use Rattle.std.specs.Prelude.{◌≡◌, ◌<◌, ◌≤◌, ◌/◌, All, length, replicate, slice_index, slice_set, IfOk, OnOk, OnErr};
ghost use Rattle.wg_buffers.specs.Pages.{buffer_written, IsOnPage};
ghost use Rattle.wg_buffers.specs.Start.{padded};

use crate::page::{PAGE_WORDS, Page};
use std::alloc::{AllocError, Global};
use std::marker::Model;
use wg_machine::Write;
use wg_words::{TryCopy, Word};

/// The words of one buffer, in pages that snapshots share.
#[derive(Debug, Drop)]
pub struct Buffer {
    size: u32,
    pages: Vec<Page>,
}

impl Model for Buffer {
    ghost use Rattle.std.specs.Prelude.{ℕ, List};
    ghost use Rattle.wg_buffers.specs.Pages.{joined, ArePages};

    ghost Value = { List ℕ };

    ghost view = { λ b. joined b.pages.items b.size };

    ghost invariant = { λ b. ArePages b.pages.items b.size };
}

impl Buffer {
    /// Start words, and then zeros up to a length.
    pub fn new(alloc: Global, size: u32, start: &[Word]) -> Result<Buffer, AllocError>
        requires { length start.now ≤ size }
        ensures { IfOk result (λ buffer. buffer ≡ padded start.now size) }
    {
        let mut buffer = Buffer::zeros(alloc, size)?;
        for (place, word) in start.iter().enumerate() {
            buffer.set(place as u32, *word)?;
        }
        Ok(buffer)
    }

    /// Zeros, all in one page that each place of the buffer shares until it is written.
    fn zeros(alloc: Global, size: u32) -> Result<Buffer, AllocError>
        ensures { IfOk result (λ buffer. buffer ≡ replicate size 0) }
    {
        let blank = Page::zeros(alloc)?;
        let count = (size as usize).div_ceil(PAGE_WORDS);
        let mut pages = Vec::with_capacity(alloc, count)?;
        for _ in 0..count {
            pages.push(blank.copy(alloc)?)?;
        }
        Ok(Buffer { size, pages })
    }

    pub fn len(&self) -> u32
        ensures { result ≡ length self.now }
    {
        self.size
    }

    /// A word, 0 out of range.
    pub fn word(&self, word: u32) -> Word
        ensures { result ≡ slice_index self.now word }
    {
        if word < self.size {
            let page = &self.pages[word as usize / PAGE_WORDS];
            page.word(word as usize % PAGE_WORDS)
        } else {
            0
        }
    }

    /// Sets a word; out of range nothing.
    pub fn set(&mut self, word: u32, value: Word) -> Result<(), AllocError>
        ensures ok { OnOk result (self.new ≡ slice_set self.old word value) }
        ensures err { OnErr result (self.new ≡ self.old) }
    {
        if word < self.size {
            let page = &mut self.pages[word as usize / PAGE_WORDS];
            page.set(word as usize % PAGE_WORDS, value)?;
        }
        Ok(())
    }

    /// Makes writes that all go to one page of this buffer. All memory is taken before the first.
    pub fn write_page(&mut self, page: u32, writes: &[Write]) -> Result<(), AllocError>
        requires { All (IsOnPage page) writes.now }
        ensures ok { OnOk result (self.new ≡ buffer_written self.old writes.now) }
        ensures err { OnErr result (self.new ≡ self.old) }
    {
        let place = page as usize;
        if place < self.pages.len() {
            self.pages[place].write_all(writes)?;
        }
        Ok(())
    }
}

impl TryCopy for Buffer {
    fn copy(&self, alloc: Global) -> Result<Self, AllocError> {
        let mut pages = Vec::with_capacity(alloc, self.pages.len())?;
        for page in &self.pages {
            pages.push(page.copy(alloc)?)?;
        }
        Ok(Buffer {
            size: self.size,
            pages,
        })
    }
}
