ghost use Rattle.std.specs.Prelude.{◌≡◌, ◌≢◌, ◌≤◌, length, IfOk};
ghost use Rattle.wg_words.specs.declared.limits.TheConstants.{MOST_LAUNCHES};
ghost use Rattle.wg_buffers.specs.Start.{started};
ghost use Rattle.wg_journal.specs.Report.{IsReport};
ghost use Rattle.wg_machine.specs.GoodShape.{IsGoodShape};
ghost use Rattle.wg_machine.specs.State.{start as start_of};
ghost use Rattle.wg_replay.specs.Lines.{terms};
ghost use Rattle.wg_script.specs.Fit.{IsFit};
ghost use Rattle.wg_verify.specs.Verdicts.{IsVerdict};
ghost use Rattle.wg_verify.specs.declared.verdict.Verdict.{Verdict as Worth};
ghost use Rattle.wg_verify.specs.declared.verdict.Verdict.TheVariants.{Memory};
ghost use Rattle.wg_verify.specs.Launches.{IsBegun};

use crate::launches::replay_lines;
use crate::tails::tail_verdict;
use crate::verdict::Verdict;
use std::alloc::{AllocError, Global};
use wg_buffers::Buffers;
use wg_machine::{Bodies, Journal, Limits, Shape, allowed_is_launch_in};
use wg_plan::Plan;
use wg_replay::Replay;
use wg_script::Script;

/// The replay at the start of a script.
fn begin(alloc: Global, shape: &Shape, script: &Script) -> Result<Replay, AllocError>
    requires good { IsGoodShape shape.now }
    requires fit { IsFit shape.now script.now }
    requires lengths { length script.now.lengths ≡ length shape.now.buffers }
    requires starts { length script.now.start ≡ length shape.now.buffers }
    ensures { IfOk result (IsBegun shape.now script.now.entries (started script.now.lengths script.now.start)) }
{
    let buffers = Buffers::new(alloc, script.lengths.as_slice(), script.start.as_slice())?;
    Replay::start(alloc, shape, script.entries.as_slice(), buffers)
}

/// What a journal of a script is worth: whether each of its lines is right for these bodies, in order from 1.
pub fn verify<B: Bodies>(
    alloc: Global,
    bodies: &B,
    script: &Script,
    journal: &Journal,
    plan: &Plan,
    limits: Limits,
) -> Verdict
    requires good { IsGoodShape (B.graph bodies.now) }
    requires fit { IsFit (B.graph bodies.now) script.now }
    requires lengths { length script.now.lengths ≡ length (B.graph bodies.now).buffers }
    requires starts { length script.now.start ≡ length (B.graph bodies.now).buffers }
    requires report { IsReport (B.graph bodies.now) journal.now }
    requires launches { limits.launches ≤ MOST_LAUNCHES }

    // The verdict is that of the first line that is not right, or of a journal whose lines are all right.
    ensures verdict { IsVerdict (terms (B.graph bodies.now) (B.made bodies.now) limits (length script.now.entries) plan.now.bytes)
        (start_of (B.graph bodies.now) script.now.entries (started script.now.lengths script.now.start)) journal.now result }

    // No other verdict is true of it.
    ensures only { (v : Worth) → v ≢ Memory → result ≢ Memory
        → IsVerdict (terms (B.graph bodies.now) (B.made bodies.now) limits (length script.now.entries) plan.now.bytes)
        (start_of (B.graph bodies.now) script.now.entries (started script.now.lengths script.now.start)) journal.now v → v ≡ result }
{
    allowed_is_launch_in();
    let Ok(mut replay) = begin(alloc, bodies.shape(), script) else {
        return Verdict::Memory;
    };
    let entries = journal.entries.as_slice();
    let bytes = plan.bytes;
    if let Err(verdict) = replay_lines(alloc, bodies, &mut replay, entries, bytes, &limits) {
        return verdict;
    }
    let launches = entries.len() as u64;
    tail_verdict(
        alloc,
        bodies,
        &replay,
        &journal.tail,
        launches,
        bytes,
        &limits,
    )
}
