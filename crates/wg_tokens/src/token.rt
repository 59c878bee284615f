use crate::mark::Mark;
use wg_words::{Items, Name, Place};

pub type Tokens = Items<Token>;

/// What a token is.
#[derive(Debug, Drop)]
pub enum TokenKind {
    /// A name or a word of the language.
    Plain {
        name: Name,
    },
    /// A number with its value; `unsigned` where it has the suffix `u` or `U`, `long` where it has `l` or `L`.
    Number {
        value: u64,
        unsigned: bool,
        long: bool,
    },
    /// A string, without its quotation marks.
    Text {
        bytes: Name,
    },
    /// Punctuation.
    Mark {
        mark: Mark,
    },
    /// What stands after the last token of a text.
    End,
}

/// A token, with the place of its first byte. Its text is `from..to` of the source, in bytes.
#[derive(Debug, Drop)]
pub struct Token {
    pub kind: TokenKind,
    pub place: Place,
    pub from: u32,
    pub to: u32,
}
