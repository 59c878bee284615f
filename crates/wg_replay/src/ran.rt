ghost use Rattle.std.specs.Prelude.{◌≡◌, IfOk, length};
ghost use Rattle.wg_machine.specs.GoodShape.{IsGoodShape};
ghost use Rattle.wg_machine.specs.LaunchMeaning.{FitsShape};
ghost use Rattle.wg_machine.specs.State.{State};
ghost use Rattle.wg_records.specs.Named.{NumbersRise};
ghost use Rattle.wg_replay.specs.Lines.{EntryRuns, RanAs, RanIs};
ghost use Rattle.wg_replay.specs.States.{IsAt};

use std::alloc::{AllocError, Global};
use wg_buffers::Buffers;
use wg_guess::guess;
use wg_machine::{Bodies, Entry, Launch, Made, Writes, allowed_launches_fit};
use wg_records::LiveRecords;

/// What came of the launch of an entry: that there is none, that it spent its turns, or what it made and its writes.
#[derive(Drop)]
pub enum Ran {
    NoLaunch,
    Spent,
    Did { made: Made, writes: Writes },
}

fn ran_of(answer: Option<Made>, writes: Writes) -> Ran
    ensures { RanAs answer writes result }
{
    match answer {
        None => Ran::Spent,
        Some(made) => Ran::Did { made, writes },
    }
}

fn run<B: Bodies>(
    alloc: Global,
    bodies: &B,
    launch: Launch,
    buffers: &Buffers,
    turns: u64,
) -> Result<Ran, AllocError>
    requires good { IsGoodShape (B.graph bodies.now) }
    requires fits { FitsShape (B.graph bodies.now) launch }
    requires many { length buffers.now ≡ length (B.graph bodies.now).buffers }
    ensures { IfOk result (RanIs (B.made bodies.now) turns launch buffers.now) }
{
    let Ok(guess) = guess(alloc, bodies, launch, buffers, turns) else {
        return Err(AllocError);
    };
    let (_, answer, writes) = guess.parts();
    Ok(ran_of(answer, writes))
}

/// Runs the launch that an entry names, if the bag allows it. The records and the buffers stay as they are.
pub fn run_entry<B: Bodies>(
    alloc: Global,
    bodies: &B,
    records: &LiveRecords,
    buffers: &Buffers,
    entry: &Entry,
    turns: u64,
) -> Result<Ran, AllocError>
    requires good { IsGoodShape (B.graph bodies.now) }
    requires rise { NumbersRise 0 entry.now.inputs }
    requires stands { (s : State) × IsAt (B.graph bodies.now) records.now buffers.now s }
    ensures { IfOk result (λ ran. (s : State) → IsAt (B.graph bodies.now) records.now buffers.now s → EntryRuns (B.graph bodies.now) (B.made bodies.now) turns s entry.now ran) }
{
    allowed_launches_fit();
    let Some(launch) = records.find(alloc, bodies.shape(), entry)? else {
        return Ok(Ran::NoLaunch);
    };
    run(alloc, bodies, launch, buffers, turns)
}
