//! Terminals of the grammar.
ghost use Rattle.std.specs.Prelude.{◌≡◌};
ghost use Rattle.wg_tokens.specs.Classes.{number};

use crate::keyword::Keyword;
use crate::mark::Mark;

/// A terminal of the grammar: what of a token decides how it is read.
#[derive(Clone, Copy, Debug, PartialEq, Eq)]
pub enum Class {
    /// A name.
    Name,
    /// A number of value 0.
    Zero,
    /// A number of another value.
    Number,
    /// A string.
    Text,
    /// What stands after the last token.
    End,
    /// A word of the language.
    Word { keyword: Keyword },
    /// Punctuation.
    Mark { mark: Mark },
}

impl Class {
    /// Its number. No two classes have the same.
    pub const fn number(self) -> u8
        ensures { result ≡ number self }
    {
        match self {
            Class::Name => 0,
            Class::Zero => 1,
            Class::Number => 2,
            Class::Text => 3,
            Class::End => 4,
            Class::Word { keyword } => 5 + keyword as u8,
            Class::Mark { mark } => 57 + mark as u8,
        }
    }
}
