ghost use Rattle.std.specs.Prelude.{◌≡◌};
ghost use Rattle.wg_journal.specs.declared.fault.JournalFault.TheVariants.{Memory};

use std::alloc::AllocError;

/// Why a text is no report of a shape.
#[derive(Clone, Copy, Debug, PartialEq, Eq)]
pub enum JournalFault {
    /// The first line that no report has there, counted from 1.
    Line { number: u64 },
    Memory,
}

impl From<AllocError> for JournalFault {
    ghost from_gives = { λ _ e. e ≡ Memory };

    fn from(_: AllocError) -> JournalFault {
        JournalFault::Memory
    }
}
