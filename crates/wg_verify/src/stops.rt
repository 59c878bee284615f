ghost use Rattle.std.specs.Prelude.{◌≡◌, ◌↔◌, ℕ, IsTrue, IfOk};
ghost use Rattle.wg_machine.specs.GoodShape.{IsGoodShape};
ghost use Rattle.wg_machine.specs.State.{State};
ghost use Rattle.wg_records.specs.Named.{NumbersRise};
ghost use Rattle.wg_replay.specs.Lines.{Spends, terms};
ghost use Rattle.wg_replay.specs.States.{IsAt};
ghost use Rattle.wg_verify.specs.Tails.{naming, IsRightStop, RisesIn};

use std::alloc::{AllocError, Global};
use wg_machine::{Bodies, Entry, Limits, Stop, allowed_is_launch_in};
use wg_replay::{Ran, Replay, run_entry};
use wg_words::{Numbers, TryCopy};

fn is_spent(ran: Ran) -> bool
    ensures { IsTrue result ↔ (ran ≡ Ran.Spent) }
{
    match ran {
        Ran::NoLaunch => false,
        Ran::Spent => true,
        Ran::Did { made: _, writes: _ } => false,
    }
}

/// Whether an entry's launch spends its turns.
fn spends<B: Bodies>(
    alloc: Global,
    bodies: &B,
    replay: &Replay,
    entry: &Entry,
    turns: u64,
) -> Result<bool, AllocError>
    requires good { IsGoodShape (B.graph bodies.now) }
    requires rise { NumbersRise 0 entry.now.inputs }
    requires stands { (s : State) × IsAt (B.graph bodies.now) replay.now.records replay.now.buffers s }
    ensures { IfOk result (λ spent. (s : State) → IsAt (B.graph bodies.now) replay.now.records replay.now.buffers s
        → (IsTrue spent ↔ Spends (B.graph bodies.now) (B.made bodies.now) turns s entry.now)) }
{
    allowed_is_launch_in();
    let ran = run_entry(
        alloc,
        bodies,
        &replay.records,
        &replay.buffers,
        entry,
        turns,
    )?;
    Ok(is_spent(ran))
}

/// An entry that names a launch and gives nothing.
fn naming_entry(
    alloc: Global,
    unit: u32,
    group: [u32; 3],
    inputs: &Numbers,
) -> Result<Entry, AllocError>
    ensures { IfOk result (λ e. e ≡ naming unit group inputs.now) }
{
    Ok(Entry {
        unit,
        at: group,
        inputs: inputs.copy(alloc)?,
        first_out: 0,
        outs: 0,
    })
}

/// Whether a stop line is right after so many launch lines.
pub fn is_right_stop<B: Bodies>(
    alloc: Global,
    bodies: &B,
    replay: &Replay,
    stop: &Stop,
    launches: u64,
    limits: &Limits,
) -> Result<bool, AllocError>
    requires good { IsGoodShape (B.graph bodies.now) }
    requires rise { RisesIn stop.now }
    requires stands { (s : State) × IsAt (B.graph bodies.now) replay.now.records replay.now.buffers s }
    ensures { IfOk result (λ right. (handed bytes : ℕ) (s : State) → IsAt (B.graph bodies.now) replay.now.records replay.now.buffers s
        → (IsTrue right ↔ IsRightStop (terms (B.graph bodies.now) (B.made bodies.now) limits.now handed bytes) launches s stop.now)) }
{
    match stop {
        Stop::Turns {
            turns,
            unit,
            group,
            inputs,
        } => {
            if *turns != limits.turns {
                return Ok(false);
            }
            if launches >= limits.launches {
                return Ok(false);
            }
            let entry = naming_entry(alloc, *unit, *group, inputs)?;
            Ok(spends(alloc, bodies, replay, &entry, limits.turns)?)
        }
        Stop::Launches { launches: given } => {
            if *given != limits.launches {
                return Ok(false);
            }
            if launches != limits.launches {
                return Ok(false);
            }
            Ok(!replay.records.is_empty())
        }
    }
}
