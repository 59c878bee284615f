ghost use Rattle.std.specs.Prelude.{◌≡◌, ◌≤◌, ◌*◌, ◌+◌, [], OnOk, IfErr};
ghost use Rattle.wg_words.specs.Each.{Each};
ghost use Rattle.wg_words.specs.declared.limits.TheConstants.{MOST_ENTRIES, MOST_LAUNCHES, MOST_STRIDE};
ghost use Rattle.wg_machine.specs.declared.launch.Entry.{Entry as Line};
ghost use Rattle.wg_machine.specs.GoodShape.{IsGoodShape};
ghost use Rattle.wg_machine.specs.State.{State};
ghost use Rattle.wg_records.specs.Named.{NumbersRise};
ghost use Rattle.wg_replay.specs.Lines.{terms};
ghost use Rattle.wg_verify.specs.Launches.{Leads};
ghost use Rattle.wg_verify.specs.Verdicts.{IsLaunchVerdict};

use crate::verdict::{Verdict, verdict_of};
use std::alloc::Global;
use wg_machine::{Bodies, Entry, Limits};
use wg_replay::Replay;

/// Replays the launch lines of a journal, or gives the verdict on the first that is not right.
pub fn replay_lines<B: Bodies>(
    alloc: Global,
    bodies: &B,
    replay: &mut Replay,
    entries: &[Entry],
    bytes: u64,
    limits: &Limits,
) -> Result<(), Verdict>
    requires good { IsGoodShape (B.graph bodies.now) }
    requires rise { Each (λ (e : Line). NumbersRise 0 e.inputs) entries.now }
    requires launches { limits.now.launches ≤ MOST_LAUNCHES }
    requires begun { (first : State) × Leads (terms (B.graph bodies.now) (B.made bodies.now) limits.now replay.old.records.handed bytes) first [] replay.old }
    requires small { replay.old.records.bytes ≤ MOST_STRIDE * replay.old.records.next }
    requires next { replay.old.records.next ≤ MOST_ENTRIES }
    requires denied { replay.old.denied ≡ 0 }
    ensures right { OnOk result ((first : State) → Leads (terms (B.graph bodies.now) (B.made bodies.now) limits.now replay.old.records.handed bytes) first [] replay.old
        → Leads (terms (B.graph bodies.now) (B.made bodies.now) limits.now replay.old.records.handed bytes) first entries.now replay.new) }
    ensures fault { IfErr result (λ v. (first : State) → Leads (terms (B.graph bodies.now) (B.made bodies.now) limits.now replay.old.records.handed bytes) first [] replay.old
        → IsLaunchVerdict (terms (B.graph bodies.now) (B.made bodies.now) limits.now replay.old.records.handed bytes) first entries.now v) }
{
    for (place, entry) in entries.iter().enumerate() {
        let before = place as u64;
        if let Err(fault) = replay.line(alloc, bodies, entry, before, bytes, limits) {
            return Err(verdict_of(fault, before + 1));
        }
    }
    Ok(())
}
