ghost use Rattle.std.specs.Prelude.{◌≡◌};
ghost use Rattle.wg_verify.specs.Verdicts.{verdict_of as given_for};

use wg_replay::LineFault;

/// What a journal is worth. Lines are counted from 1.
#[derive(Clone, Copy, Debug, PartialEq, Eq)]
pub enum Verdict {
    /// The whole report of a run that came to its end.
    Complete,
    /// Each line is right, but the journal does not go to the end.
    Prefix,
    /// The first line that is not right.
    Wrong { line: u64 },
    /// The first line after which more bytes live than the plan's.
    OverBytes { line: u64 },
    /// The first line whose launch spends its turns.
    TurnsSpent { line: u64 },
    Memory,
}

/// The verdict of a fault of a line.
pub fn verdict_of(fault: LineFault, line: u64) -> Verdict
    ensures { result ≡ given_for fault line }
{
    match fault {
        LineFault::Wrong => Verdict::Wrong { line },
        LineFault::TurnsSpent => Verdict::TurnsSpent { line },
        LineFault::OverBytes => Verdict::OverBytes { line },
        LineFault::Memory => Verdict::Memory,
    }
}
