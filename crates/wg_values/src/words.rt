ghost use Rattle.std.specs.Prelude.{◌≡◌, ◌+◌, ◌++◌, IfOk, OnOk, map, slice_index, slice_set};
ghost use Rattle.wg_semantics.specs.Places.{words_from, over_written};
ghost use Rattle.wg_state.specs.WordLists.{zeros};
ghost use Rattle.wg_typed.specs.Layout.{put};

use std::alloc::{AllocError, Global};
use wg_words::{Word, WordLists, Words};

/// A word, 0 behind the end.
pub fn word_at(words: &[Word], at: u64) -> Word
    ensures { result ≡ slice_index words.now at }
{
    if at < words.len() as u64 {
        words[at as usize]
    } else {
        0
    }
}

/// The words with one set; behind the end nothing is.
pub fn set_word(words: &mut Vec<Word>, at: u64, value: Word)
    ensures { words.new.items ≡ slice_set words.old.items at value }
{
    if at < words.len() as u64 {
        words[at as usize] = value;
    }
}

/// So many words of zeros.
pub fn zero_words(alloc: Global, count: u64) -> Result<Words, AllocError>
    ensures { IfOk result (λ list. list ≡ zeros count) }
{
    let mut list = Words::new(alloc);
    for _i in 0..count {
        list.push(0)?;
    }
    Ok(list)
}

/// The word so many places behind another, 0 behind the end.
fn word_behind(words: &[Word], from: u64, more: u64) -> Word
    ensures { result ≡ slice_index words.now (from + more) }
{
    match from.checked_add(more) {
        Some(at) => word_at(words, at),
        None => 0,
    }
}

/// So many words from one on; 0 behind the end.
#[tactic(auto, using(crate::proofs::Lists::words_from_last))]
pub fn cut(alloc: Global, words: &[Word], from: u64, count: u64) -> Result<Words, AllocError>
    ensures { IfOk result (λ list. list ≡ words_from words.now from count) }
{
    let mut list = Words::new(alloc);
    for i in 0..count {
        list.push(word_behind(words, from, i))?;
    }
    Ok(list)
}

fn set_behind(words: &mut Vec<Word>, from: u64, more: u64, value: Word)
    ensures { words.new.items ≡ slice_set words.old.items (from + more) value }
{
    match from.checked_add(more) {
        Some(at) => set_word(words, at, value),
        None => (),
    }
}

/// The words with others written over them from one on; behind the end nothing is written.
#[tactic(auto, using(crate::proofs::Lists::over_written_next))]
pub fn write_over(words: Words, from: u64, values: &[Word]) -> Words
    ensures { result ≡ over_written words from values.now }
{
    let mut list = words.into_vec();
    for i in 0..values.len() {
        set_behind(&mut list, from, i as u64, values[i]);
    }
    Words::from_vec(list)
}

/// Words by their numbers, each 0 behind the end.
pub fn pick(alloc: Global, words: &[Word], numbers: &[Word]) -> Result<Words, AllocError>
    ensures { IfOk result (λ list. list ≡ map (slice_index words.now) numbers.now) }
{
    let mut list = Words::new(alloc);
    for number in numbers {
        list.push(word_at(words, u64::from(*number)))?;
    }
    Ok(list)
}

fn put_one(list: &mut Words, more: &[Word]) -> Result<(), AllocError>
    ensures { OnOk result (list.new ≡ list.old ++ more.now) }
{
    for word in more {
        list.push(*word)?;
    }
    Ok(())
}

/// The words of a value whose parts have these.
pub fn put_all(alloc: Global, parts: &WordLists) -> Result<Words, AllocError>
    ensures { IfOk result (λ list. list ≡ put parts.now) }
{
    let mut list = Words::new(alloc);
    for part in parts.as_slice() {
        put_one(&mut list, part.as_slice())?;
    }
    Ok(list)
}
