//! Why reading stops.
use std::alloc::{AllocError, AllocFailed};

/// Why reading stopped at the next token.
#[derive(Clone, Copy, Debug, PartialEq, Eq)]
pub enum Halt {
    /// It cannot stand there, or there is none.
    Wrong,
    /// It is deeper than there is room for.
    Deep,
    /// No memory was left.
    Memory,
}

impl From<AllocError> for Halt {
    ghost use Rattle.std.specs.Prelude.{◌≡◌};
    ghost use Rattle.wg_cursor.specs.declared.halt.Halt.TheVariants.{Memory};

    ghost from_gives = { λ _ halt. halt ≡ Memory };

    fn from(_error: AllocError) -> Halt {
        Halt::Memory
    }
}

impl<T: Drop> From<AllocFailed<T>> for Halt {
    ghost use Rattle.std.specs.Prelude.{◌≡◌};
    ghost use Rattle.wg_cursor.specs.declared.halt.Halt.TheVariants.{Memory};

    ghost from_gives = { λ _ halt. halt ≡ Memory };

    fn from(_error: AllocFailed<T>) -> Halt {
        Halt::Memory
    }
}
