ghost use Rattle.std.specs.Prelude.{◌≡◌, ◌≤◌, ℕ, List, length};
ghost use Rattle.wg_words.specs.declared.limits.TheConstants.{MOST_BUFFERS, MOST_LAUNCHES};
ghost use Rattle.wg_machine.specs.declared.launch.Entry.{Entry as Line};
ghost use Rattle.wg_machine.specs.GoodShape.{IsGoodShape};
ghost use Rattle.wg_machine.specs.State.{State};
ghost use Rattle.wg_machine.specs.Step.{Passed};
ghost use Rattle.wg_replay.specs.Lines.{terms};
ghost use Rattle.wg_replay.specs.States.{IsAt};
ghost use Rattle.wg_verify.specs.Launches.{HasReplayed};
ghost use Rattle.wg_verify.specs.Tails.{buffer_lines, HasForm, RisesIn};
ghost use Rattle.wg_verify.specs.Verdicts.{outcome, BuffersVerdict, StopVerdict, TailVerdict};

use crate::buffers::first_wrong;
use crate::done::is_right_done;
use crate::stops::is_right_stop;
use crate::verdict::Verdict;
use std::alloc::Global;
use wg_buffers::Buffers;
use wg_machine::{Bodies, BufferLine, Limits, Stop, Tail};
use wg_replay::Replay;
use wg_words::Names;

/// The verdict on the lines of buffers that follow a right done line.
fn buffers_verdict(buffers: &Buffers, names: &Names, lines: &[BufferLine], launches: u64) -> Verdict
    requires many { length buffers.now ≡ length names.now }
    requires few { length names.now ≤ MOST_BUFFERS }
    requires launches { launches ≤ MOST_LAUNCHES }
    ensures { BuffersVerdict launches lines.now (buffer_lines names.now buffers.now) result }
{
    let Some(place) = first_wrong(buffers, names, lines) else {
        if lines.len() == names.len() {
            return Verdict::Complete;
        }
        return Verdict::Prefix;
    };
    let line = launches + 2 + place as u64;
    Verdict::Wrong { line }
}

/// The verdict on a stop line.
fn stop_verdict<B: Bodies>(
    alloc: Global,
    bodies: &B,
    replay: &Replay,
    stop: &Stop,
    launches: u64,
    limits: &Limits,
) -> Verdict
    requires good { IsGoodShape (B.graph bodies.now) }
    requires rise { RisesIn stop.now }
    requires stands { (s : State) × IsAt (B.graph bodies.now) replay.now.records replay.now.buffers s }
    requires launches { launches ≤ MOST_LAUNCHES }
    ensures { (handed bytes : ℕ) (s : State) → IsAt (B.graph bodies.now) replay.now.records replay.now.buffers s
        → StopVerdict (terms (B.graph bodies.now) (B.made bodies.now) limits.now handed bytes) launches s stop.now result }
{
    let Ok(right) = is_right_stop(alloc, bodies, replay, stop, launches, limits) else {
        return Verdict::Memory;
    };
    if right {
        return Verdict::Prefix;
    }
    let line = launches + 1;
    Verdict::Wrong { line }
}

/// The verdict on the lines that follow so many right launch lines.
pub fn tail_verdict<B: Bodies>(
    alloc: Global,
    bodies: &B,
    replay: &Replay,
    tail: &Tail,
    launches: u64,
    bytes: u64,
    limits: &Limits,
) -> Verdict
    requires good { IsGoodShape (B.graph bodies.now) }
    requires form { HasForm tail.now }
    requires stands { (s : State) × IsAt (B.graph bodies.now) replay.now.records replay.now.buffers s }
    requires launches { launches ≤ MOST_LAUNCHES }
    ensures { (handed : ℕ) (first : State) (entries : List Line) (trail : List Passed) (s : State)
        → HasReplayed (terms (B.graph bodies.now) (B.made bodies.now) limits.now handed bytes) first entries trail s replay.now
        → TailVerdict (terms (B.graph bodies.now) (B.made bodies.now) limits.now handed bytes) (outcome first launches trail s) tail.now result }
{
    if let Some(done) = &tail.done {
        if !is_right_done(replay, done, launches, bytes) {
            let line = launches + 1;
            return Verdict::Wrong { line };
        }
        let names = &bodies.shape().buffers;
        return buffers_verdict(&replay.buffers, names, tail.buffers.as_slice(), launches);
    }
    if let Some(stop) = &tail.stop {
        return stop_verdict(alloc, bodies, replay, stop, launches, limits);
    }
    Verdict::Prefix
}
