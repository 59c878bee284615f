//! Why a text is not cut into tokens.
use std::alloc::{AllocError, AllocFailed};
use wg_words::Place;

/// Why a text is not cut into tokens, with the place of what breaks the rule.
#[derive(Clone, Copy, Debug, PartialEq, Eq)]
pub enum LexFault {
    /// A byte of 128 or more outside comments.
    NotAscii { place: Place },
    /// A `#` that begins its line, but for blanks.
    Preprocessor { place: Place },
    /// A number of more than 64 bits.
    WideLiteral { place: Place },
    /// A `/*` without `*/`.
    OpenComment { place: Place },
    /// A byte that begins no token; of a string without end, its first `"`.
    StrayByte { place: Place },
    /// More than 1,048,576 bytes. It stands at line 1, column 1.
    TextTooLong,
    /// No memory was left.
    Memory,
}

impl From<AllocError> for LexFault {
    ghost use Rattle.std.specs.Prelude.{◌≡◌};
    ghost use Rattle.wg_lex.specs.declared.fault.LexFault.TheVariants.{Memory};

    ghost from_gives = { λ _ fault. fault ≡ Memory };

    fn from(_error: AllocError) -> LexFault {
        LexFault::Memory
    }
}

impl<T: Drop> From<AllocFailed<T>> for LexFault {
    ghost use Rattle.std.specs.Prelude.{◌≡◌};
    ghost use Rattle.wg_lex.specs.declared.fault.LexFault.TheVariants.{Memory};

    ghost from_gives = { λ _ fault. fault ≡ Memory };

    fn from(_error: AllocFailed<T>) -> LexFault {
        LexFault::Memory
    }
}
