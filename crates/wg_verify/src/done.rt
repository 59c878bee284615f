ghost use Rattle.std.specs.Prelude.{◌≡◌, ◌↔◌, ℕ, List, IsTrue, length};
ghost use Rattle.wg_machine.specs.declared.launch.Entry.{Entry as Line};
ghost use Rattle.wg_machine.specs.State.{State};
ghost use Rattle.wg_machine.specs.Step.{Passed};
ghost use Rattle.wg_replay.specs.Lines.{Terms};
ghost use Rattle.wg_verify.specs.Launches.{HasReplayed};
ghost use Rattle.wg_verify.specs.Tails.{IsRightDone};
ghost use Rattle.wg_verify.specs.Verdicts.{outcome};

use wg_machine::Done;
use wg_replay::Replay;

/// The done line of a run that ends where a replay has come to.
fn done_at(replay: &Replay, launches: u64, bytes: u64) -> Done
    ensures { result ≡ record { launches = launches; records = replay.now.records.next; denied = replay.now.denied; peak = replay.now.peak; bytes = bytes } }
{
    Done {
        launches,
        records: replay.records.next,
        denied: replay.denied,
        peak: replay.peak,
        bytes,
    }
}

/// Whether a done line is right after so many launch lines.
pub fn is_right_done(replay: &Replay, done: &Done, launches: u64, bytes: u64) -> bool
    ensures { (t : Terms) (first : State) (entries : List Line) (trail : List Passed) (s : State)
        → HasReplayed t first entries trail s replay.now → t.bytes ≡ bytes
        → (IsTrue result ↔ IsRightDone t (outcome first launches trail s) done.now) }
{
    replay.records.is_empty() && *done == done_at(replay, launches, bytes)
}
