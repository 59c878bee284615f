ghost use Rattle.std.specs.Prelude.{◌≡◌};
ghost use Rattle.wg_plan.specs.declared.answer.PlanFault.TheVariants.{Memory};

use std::alloc::AllocError;
use wg_words::Words;

/// The slots of a run.
///
/// `width` is the number of launches out at a time that there is room for, `slots` the number of slots of each unit,
/// `least` the bytes for one launch out, `greatest` those for 64, `bytes` those for `width`.
#[derive(Debug, Drop)]
pub struct Plan {
    pub width: u32,
    pub slots: Words,
    pub least: u64,
    pub greatest: u64,
    pub bytes: u64,
}

/// Why there is no plan.
#[derive(Clone, Copy, Debug, PartialEq, Eq)]
pub enum PlanFault {
    /// The given bytes do not hold one launch.
    TooSmall { need: u64, given: u64 },
    /// No bytes were given, and the width takes more than 2^30.
    TooLarge { need: u64 },
    Memory,
}

impl From<AllocError> for PlanFault {
    ghost from_gives = { λ _ fault. fault ≡ Memory };

    fn from(_: AllocError) -> Self {
        PlanFault::Memory
    }
}
