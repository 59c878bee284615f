ghost use Rattle.std.specs.Prelude.{◌≡◌};
ghost use Rattle.wg_script.specs.declared.script.ScriptFault.TheVariants.{Memory};

use std::alloc::AllocError;
use wg_machine::Entries;
use wg_words::{WordLists, Words};

/// What a script says: the entry records in order, and of each shared buffer its length in words and its first words.
///
/// `lengths` and `start` have one item for each buffer of the shape, in its order. The words of a buffer after those of
/// `start` are zeros.
#[derive(Debug, Drop)]
pub struct Script {
    pub entries: Entries,
    pub lengths: Words,
    pub start: WordLists,
}

/// Why a text is no script of a shape: the first line that breaks a rule, counted from 1, and its first broken rule.
#[derive(Clone, Copy, Debug, PartialEq, Eq)]
pub enum ScriptFault {
    /// The line has no form of a line, or line 1 names no version.
    Form { line: u64 },
    /// No node has this name and index.
    NoNode { line: u64 },
    /// The node is no entry.
    NotEntry { line: u64 },
    /// A record has other than `want` words, or a buffer has more words than the `want` of its count.
    WordCount { line: u64, want: u64, have: u64 },
    /// A component of the record's grid is above the maximum.
    GridTooLarge { line: u64 },
    /// No buffer has this name.
    NoBuffer { line: u64 },
    /// A second line of this buffer.
    TwiceBuffer { line: u64 },
    /// A `bool` word is neither 0 nor 1.
    BadBool { line: u64 },
    /// More than 1,000,000 entries, 2^22 words of this buffer or 2^24 words of all buffers.
    TooMany { line: u64 },
    Memory,
}

impl From<AllocError> for ScriptFault {
    ghost from_gives = { λ _ e. e ≡ Memory };

    fn from(_: AllocError) -> ScriptFault {
        ScriptFault::Memory
    }
}
