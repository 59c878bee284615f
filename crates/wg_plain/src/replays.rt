ghost use Rattle.std.specs.Prelude.{◌<◌, ◌^◌, IfOk, length};
ghost use Rattle.wg_words.specs.Each.{Each};
ghost use Rattle.wg_machine.specs.GoodShape.{IsGoodShape};
ghost use Rattle.wg_machine.specs.LaunchMeaning.{Arrives};
ghost use Rattle.wg_plain.specs.Sizes.{AreShort};
ghost use Rattle.wg_plain.specs.Rests.{IfRun, IfNoStep, IsNoRun, Leaves, StopsAt};

use crate::steps::{Rest, started, step};
use std::alloc::{AllocError, Global};
use wg_machine::{Bodies, Entry, Sent, allowed_is_launch_in};
use wg_words::Words;

/// What a list of entries is: a run, with what it leaves, or none, with the first entry that is no step after the
/// entries before it, counted from 0.
#[derive(Debug, Drop)]
pub enum Replayed {
    Run(Rest),
    NoStep { entry: u64 },
}

/// Makes a run of entries, from the start of a script, one step after another.
///
/// `turns` is the number of turns that one launch may make.
pub fn replay<B: Bodies>(
    alloc: Global,
    bodies: &B,
    script: &[Sent],
    buffers: &[Words],
    turns: u64,
    entries: &[Entry],
) -> Result<Replayed, AllocError>
    requires good { IsGoodShape (B.graph bodies.now) }
    requires arrive { Each (Arrives (B.graph bodies.now)) script.now }
    requires short { AreShort buffers.now }
    requires few_records { length script.now < 2 ^ 32 }
    requires few_entries { length entries.now < 2 ^ 32 }
    ensures run { IfOk result (IfRun (Leaves (B.graph bodies.now) (B.made bodies.now) turns script.now buffers.now entries.now)) }
    ensures stops { IfOk result (IfNoStep (StopsAt (B.graph bodies.now) (B.made bodies.now) turns script.now buffers.now entries.now)) }
    ensures no_run { IfOk result (IfNoStep (λ _. IsNoRun (B.graph bodies.now) (B.made bodies.now) turns script.now buffers.now entries.now)) }
{
    allowed_is_launch_in();
    let handed = script.len() as u64;
    let mut rest = started(alloc, bodies.shape(), script, buffers)?;
    for (i, entry) in entries.iter().enumerate() {
        let Some(after) = step(alloc, bodies, rest, handed, entry, turns)? else {
            return Ok(Replayed::NoStep { entry: i as u64 });
        };
        rest = after;
    }
    Ok(Replayed::Run(rest))
}
