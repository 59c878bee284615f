ghost use Rattle.std.specs.Prelude.{◌≡◌, ◌<◌, [], length, slice_index_or, slice_set};
ghost use Rattle.wg_machine.specs.Buffers.{word_at, with_word};
ghost use Rattle.wg_code.specs.Lane.{with_ranged};

use crate::sharing::Sharing;
use crate::words::{put, word};
use sqlite_items::Items;
use std::alloc::Global;
use std::mem;
use wg_words::{Word, WordLists, Words};

/// The words that a text declares `groupshared`.
pub type SharedWords = Items<Word>;

/// What the lanes of a launch share while they run, and the turns that are left. The buffers are not here: they are the memory's.
#[derive(Drop)]
pub struct Outside {
    pub shared: SharedWords,
    pub world: Sharing,
    pub turns: u64,
}

/// Sets a groupshared word of a range, by an index.
pub fn put_shared(shared: &mut SharedWords, from: u32, to: u32, index: u32, value: Word)
    ensures { shared.new ≡ with_ranged shared.old from to index value }
{
    if from < to && index < to - from {
        let at = (from + index) as usize;
        if at < shared.len() {
            shared.set(at, value);
        }
    }
}

/// A word of an input record.
pub fn word_of(inputs: &WordLists, input: u32, at: u32) -> Word
    ensures { result ≡ word_at inputs.now input at }
{
    match inputs.get(input as usize) {
        None => 0,
        Some(words) => word(words.as_slice(), at),
    }
}

fn put_in(list: &mut Vec<Words>, alloc: Global, at: usize, word: u32, value: Word)
    requires { at < length list.old.items }
    ensures { list.new.items ≡ slice_set list.old.items at (slice_set (slice_index_or list.old.items at []) word value) }
{
    let place = &mut list[at];
    let mut words = mem::replace(place, Words::new(alloc)).into_vec();
    put(&mut words, word, value);
    *place = Words::from_vec(words);
}

/// Sets a word of an input record.
pub fn put_word_of(inputs: &mut WordLists, alloc: Global, input: u32, at: u32, value: Word)
    ensures { inputs.new ≡ with_word inputs.old input at value }
{
    if (input as usize) < inputs.len() {
        let mut list = mem::replace(inputs, WordLists::new(alloc)).into_vec();
        put_in(&mut list, alloc, input as usize, at, value);
        *inputs = WordLists::from_vec(list);
    }
}
