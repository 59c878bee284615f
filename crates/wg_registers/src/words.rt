ghost use Rattle.std.specs.Prelude.{◌≡◌, ◌+◌, ◌%◌, ◌/◌, ◌^◌, slice_index, slice_set};
ghost use Rattle.wg_code.specs.Lane.{ranged, with_ranged};
ghost use Rattle.wg_code.specs.Operators.{paired};

use wg_words::Word;

/// A word, 0 behind the end.
#[inline(always)]
pub fn word(words: &[Word], at: u32) -> Word
    ensures { result ≡ slice_index words.now at }
{
    if (at as usize) < words.len() {
        words[at as usize]
    } else {
        0
    }
}

/// Sets a word; behind the end nothing is.
#[inline(always)]
pub fn put(words: &mut [Word], at: u32, value: Word)
    ensures { words.new ≡ slice_set words.old at value }
{
    if (at as usize) < words.len() {
        words[at as usize] = value;
    }
}

/// The word of a range by an index, 0 outside.
pub fn ranged_word(words: &[Word], from: u32, to: u32, index: u32) -> Word
    ensures { result ≡ ranged words.now from to index }
{
    if from < to && index < to - from {
        word(words, from + index)
    } else {
        0
    }
}

/// Sets the word of a range by an index; outside nothing is.
pub fn put_ranged(words: &mut [Word], from: u32, to: u32, index: u32, value: Word)
    ensures { words.new ≡ with_ranged words.old from to index value }
{
    if from < to && index < to - from {
        put(words, from + index, value);
    }
}

fn word_behind(words: &[Word], at: u32) -> Word
    ensures { result ≡ slice_index words.now (at + 1) }
{
    let behind = at as usize + 1;
    if behind < words.len() {
        words[behind]
    } else {
        0
    }
}

/// Sets the word behind one.
pub fn put_behind(words: &mut [Word], at: u32, value: Word)
    ensures { words.new ≡ slice_set words.old (at + 1) value }
{
    let behind = at as usize + 1;
    if behind < words.len() {
        words[behind] = value;
    }
}

fn joined(low: Word, high: Word) -> u64
    ensures { result ≡ paired low high }
{
    u64::from(low) + u64::from(high) * 4_294_967_296
}

/// The number of 64 bits of two words.
pub fn pair(words: &[Word], at: u32) -> u64
    ensures { result ≡ paired (slice_index words.now at) (slice_index words.now (at + 1)) }
{
    joined(word(words, at), word_behind(words, at))
}

pub fn low_word(value: u64) -> Word
    ensures { result ≡ value % 2 ^ 32 }
{
    (value % 4_294_967_296) as Word
}

pub fn high_word(value: u64) -> Word
    ensures { result ≡ value / 2 ^ 32 }
{
    (value / 4_294_967_296) as Word
}
