ghost use Rattle.std.specs.Prelude.{◌≡◌, ◌+◌, ◌≤◌, length};
ghost use Rattle.wg_slots.specs.Kept.{part as part_of};
ghost use Rattle.wg_slots.specs.Layout.{IsWritten};

use wg_words::Word;

/// So many words of a block, from a place on.
pub fn part(block: &[Word], at: usize, words: usize) -> &[Word]
    requires { at + words ≤ length block.now }
    ensures { result.now ≡ part_of block.now at words }
{
    &block[at..at + words]
}

/// Copies words into a block, from a place on.
pub fn write(block: &mut [Word], at: usize, words: &[Word])
    requires { at + length words.now ≤ length block.old }
    ensures { IsWritten block.old block.new at words.now }
{
    block[at..at + words.len()].copy_from_slice(words);
}
