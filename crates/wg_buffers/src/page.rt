ghost use Rattle.std.specs.Prelude.{◌≡◌, ◌<◌, ◌%◌, length, OnOk, OnErr, IfOk, replicate, slice_set, slice_index};
ghost use Rattle.std.specs.Arc.{arc_value};
ghost use Rattle.wg_buffers.specs.Pages.{page_written, word_written, target_word};

use std::alloc::{AllocError, Global};
use std::marker::Model;
use std::sync::Arc;
use wg_machine::Write;
use wg_words::{TryCopy, Word};

/// Words of a page.
pub const PAGE_WORDS: usize = 256;

/// Words that several buffers and snapshots may share. The first write to shared ones makes a copy.
#[derive(Debug, Drop)]
pub struct Page {
    words: Arc<[Word; PAGE_WORDS]>,
}

impl Model for Page {
    ghost use Rattle.std.specs.Prelude.{ℕ, List};
    ghost use Rattle.std.specs.Arc.{arc_value};

    ghost Value = { List ℕ };

    ghost view = { λ p. arc_value p.words };
}

impl Page {
    pub fn zeros(alloc: Global) -> Result<Page, AllocError>
        ensures { IfOk result (λ page. page ≡ replicate 256 0) }
    {
        match Arc::new(alloc, [0; PAGE_WORDS]) {
            Ok(words) => Ok(Page { words }),
            Err(_) => Err(AllocError),
        }
    }

    pub fn word(&self, at: usize) -> Word
        requires { at < 256 }
        ensures { result ≡ slice_index self.now at }
    {
        self.words[at]
    }

    /// Sets a word, in place where nobody shares the page.
    pub fn set(&mut self, at: usize, value: Word) -> Result<(), AllocError>
        requires { at < 256 }
        ensures ok { OnOk result (self.new ≡ slice_set self.old at value) }
        ensures err { OnErr result (self.new ≡ self.old) }
    {
        set_in(&mut self.words, at, value)
    }

    /// Makes writes in their order, in place where nobody shares the page. All memory is taken before the first.
    pub fn write_all(&mut self, writes: &[Write]) -> Result<(), AllocError>
        ensures ok { OnOk result (self.new ≡ page_written self.old writes.now) }
        ensures err { OnErr result (self.new ≡ self.old) }
    {
        write_all_in(&mut self.words, writes)
    }
}

impl TryCopy for Page {
    fn copy(&self, _: Global) -> Result<Self, AllocError> {
        Ok(Page {
            words: Arc::try_clone(&self.words)?,
        })
    }
}

fn set_in(shared: &mut Arc<[Word; PAGE_WORDS]>, at: usize, value: Word) -> Result<(), AllocError>
    requires { at < 256 }
    ensures ok { OnOk result (arc_value shared.new ≡ slice_set (arc_value shared.old) at value) }
    ensures err { OnErr result (arc_value shared.new ≡ arc_value shared.old) }
{
    let words = Arc::make_mut(shared)?;
    words[at] = value;
    Ok(())
}

fn write_all_in(shared: &mut Arc<[Word; PAGE_WORDS]>, writes: &[Write]) -> Result<(), AllocError>
    ensures ok { OnOk result (arc_value shared.new ≡ page_written (arc_value shared.old) writes.now) }
    ensures err { OnErr result (arc_value shared.new ≡ arc_value shared.old) }
{
    let words = Arc::make_mut(shared)?;
    write_each(words, writes);
    Ok(())
}

fn write_each(words: &mut [Word; PAGE_WORDS], writes: &[Write])
    ensures { words.new ≡ page_written words.old writes.now }
{
    for write in writes {
        write_in(words, *write);
    }
}

fn write_in(words: &mut [Word; PAGE_WORDS], write: Write)
    ensures { words.new ≡ word_written words.old (target_word write % 256) write }
{
    match write {
        Write::Set { word, value, .. } => words[word as usize % PAGE_WORDS] = value,
        Write::Add { word, value, .. } => {
            let at = word as usize % PAGE_WORDS;
            words[at] = words[at].wrapping_add(value);
        }
    }
}
