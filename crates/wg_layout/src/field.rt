ghost use Rattle.std.specs.Prelude.{◌≡◌, ◌≤◌, length};
ghost use Rattle.wg_layout.specs.Fields.{field_word, with_field_word};

use wg_words::Word;

/// The word of this index in the range `from..to` of the words; 0 outside the range.
pub fn read_field(words: &[Word], from: u32, to: u32, index: u32) -> Word
    requires ordered { from ≤ to }
    requires within { to ≤ length words.now }
    ensures { result ≡ field_word words.now from to index }
{
    if index < to - from {
        words[(from + index) as usize]
    } else {
        0
    }
}

/// Makes this the word of the index in the range `from..to` of the words, and leaves all others; outside the range it
/// writes nothing.
pub fn write_field(words: &mut [Word], from: u32, to: u32, index: u32, value: Word)
    requires ordered { from ≤ to }
    requires within { to ≤ length words.old }
    ensures { words.new ≡ with_field_word words.old from to index value }
{
    let length = to - from;
    if index < length {
        words[(from + index) as usize] = value;
    }
}
