ghost use Rattle.std.specs.Prelude.{◌≡◌, ◌+◌, ◌≤◌, ◌<◌, ◌++◌, ◌∷◌, [], length, nat_lt, replicate, IfOk, OnOk, OnErr, if◌then◌else◌, slice_index, slice_set};
ghost use Rattle.wg_machine.specs.Buffers.{word_at, with_word};
ghost use Rattle.wg_state.specs.WordLists.{zeros, list_at};
ghost use Rattle.wg_grants.specs.Spans.{part_of, parts_of, LieFrom};

use crate::spans::Span;
use std::alloc::{AllocError, Global};
use std::marker::Model;
use wg_words::Word;

/// Lists of words, one behind another in one block.
#[derive(Debug, Drop)]
pub struct Block {
    spans: Vec<Span>,
    words: Vec<Word>,
}

impl Model for Block {
    ghost use Rattle.std.specs.Prelude.{ℕ, List, length};
    ghost use Rattle.wg_grants.specs.Spans.{parts_of, LieFrom};

    ghost Value = { List (List ℕ) };

    ghost view = { λ b. parts_of b.spans.items b.words.items };

    ghost invariant = { λ b. LieFrom 0 b.spans.items (length b.words.items) };
}

/// The items of a span.
fn part(words: &[Word], span: Span) -> &[Word]
    requires { span.first + span.count ≤ length words.now }
    ensures { result.now ≡ part_of span words.now }
{
    &words[span.first..span.first + span.count]
}

/// A word of a span, 0 behind its end.
fn word_of(words: &[Word], span: Span, at: u32) -> Word
    requires { span.first + span.count ≤ length words.now }
    ensures { result ≡ (if nat_lt at span.count then slice_index words.now (span.first + at) else 0) }
{
    if (at as usize) < span.count {
        words[span.first + at as usize]
    } else {
        0
    }
}

/// Sets a word of a span; behind its end nothing is.
fn put_word(words: &mut [Word], span: Span, at: u32, value: Word)
    requires { span.first + span.count ≤ length words.old }
    ensures { words.new ≡ (if nat_lt at span.count then slice_set words.old (span.first + at) value else words.old) }
{
    if (at as usize) < span.count {
        words[span.first + at as usize] = value;
    }
}

fn list_in<'a>(spans: &[Span], words: &'a [Word], list: usize) -> &'a [Word]
    requires { LieFrom 0 spans.now (length words.now) }
    ensures { result.now ≡ list_at (parts_of spans.now words.now) list }
{
    match spans.get(list) {
        Some(span) => part(words, *span),
        None => &[],
    }
}

fn word_in(spans: &[Span], words: &[Word], list: usize, at: u32) -> Word
    requires { LieFrom 0 spans.now (length words.now) }
    ensures { result ≡ word_at (parts_of spans.now words.now) list at }
{
    match spans.get(list) {
        Some(span) => word_of(words, *span, at),
        None => 0,
    }
}

fn put_in(spans: &[Span], words: &mut [Word], list: usize, at: u32, value: Word)
    requires { LieFrom 0 spans.now (length words.old) }
    ensures lists { parts_of spans.now words.new ≡ with_word (parts_of spans.now words.old) list at value }
    ensures size { length words.new ≡ length words.old }
{
    match spans.get(list) {
        Some(span) => put_word(words, *span, at, value),
        None => (),
    }
}

/// So many zeros behind the words, or none.
fn extend(words: &mut Vec<Word>, count: usize) -> Result<(), AllocError>
    ensures ok { OnOk result (words.new.items ≡ words.old.items ++ replicate count 0) }
    ensures err { OnErr result (words.new.items ≡ words.old.items) }
{
    let end = end_after(words.len(), count)?;
    words.resize(end, 0)
}

/// How many words there are after so many more.
fn end_after(first: usize, count: usize) -> Result<usize, AllocError>
    ensures { IfOk result (λ end. end ≡ first + count) }
{
    first.checked_add(count).ok_or(AllocError)
}

impl Block {
    pub fn new(alloc: Global) -> Block
        ensures { result ≡ [] }
    {
        Block {
            spans: Vec::new(alloc),
            words: Vec::new(alloc),
        }
    }

    /// How many lists there are.
    pub fn len(&self) -> usize
        ensures { result ≡ length self.now }
    {
        self.spans.len()
    }

    /// The words of a list, none where there is none.
    pub fn list(&self, list: usize) -> &[Word]
        ensures { result.now ≡ list_at self.now list }
    {
        list_in(&self.spans, &self.words, list)
    }

    /// A word of a list, 0 where there is none.
    pub fn word(&self, list: usize, at: u32) -> Word
        ensures { result ≡ word_at self.now list at }
    {
        word_in(&self.spans, &self.words, list, at)
    }

    /// Sets a word of a list; where there is none, nothing is.
    pub fn put(&mut self, list: usize, at: u32, value: Word)
        ensures { self.new ≡ with_word self.old list at value }
    {
        put_in(&self.spans, &mut self.words, list, at, value);
    }

    /// One more list, of so many zeros.
    pub fn push_zeros(&mut self, count: u32) -> Result<(), AllocError>
        ensures ok { OnOk result (self.new ≡ self.old ++ zeros count ∷ []) }
        ensures err { OnErr result (self.new ≡ self.old) }
    {
        let first = self.words.as_slice().len();
        let count = count as usize;
        extend(&mut self.words, count)?;
        self.spans.push(Span { first, count })?;
        Ok(())
    }

    /// One more list, of these words.
    pub fn push_copy(&mut self, words: &[Word]) -> Result<(), AllocError>
        ensures ok { OnOk result (self.new ≡ self.old ++ words.now ∷ []) }
        ensures err { OnErr result (self.new ≡ self.old) }
    {
        let first = self.words.as_slice().len();
        let count = words.len();
        self.words.extend_from_slice(words)?;
        self.spans.push(Span { first, count })?;
        Ok(())
    }
}
