ghost use Rattle.std.specs.Prelude.{◌≡◌, ◌≤◌, ◌+◌, ◌*◌, [], IfErr, IfOk, IsTrue, List, None, OnOk, length};
ghost use Rattle.wg_machine.specs.declared.launch.Sent.{Sent as SentOf};
ghost use Rattle.wg_machine.specs.Buffers.{Buffers as AllWords};
ghost use Rattle.wg_machine.specs.LaunchMeaning.{Meaning};
ghost use Rattle.wg_standing.specs.Standing.{StandsFor};
ghost use Rattle.wg_rounds.specs.Ends.{EndsBy, KeepsEachGuess, KeepsOneEachRound, NoneIsShared, RoundEnds, RunsRound};
ghost use Rattle.wg_rounds.specs.Ahead.{AreAhead, FailsToOpenRound, FailsToSettleAll, NothingRead, OpensRound, SettlesAll};

use crate::ahead::{Ahead, Why, open_next, settle_next};
use std::collections::VecDeque;
use wg_engine::{Core, Keeping};
use wg_machine::Bodies;
use wg_standing::unshared_stay;

/// A core after a run in rounds, and why it ended.
#[derive(Drop)]
pub struct Ended<K: Keeping + Drop> {
    pub core: Core<K>,
    pub why: Why,
}

// Opens a round, and guesses each launch over the same buffers.
fn open_round<K: Keeping + Drop, B: Bodies>(
    core: &mut Core<K>,
    bodies: &B,
    workers: u32,
) -> Result<Vec<Ahead>, Why>
    requires graph { B.graph bodies.now ≡ core.old.shape }
    requires free { core.old.stopped ≡ None }
    requires none_out { core.old.outs ≡ [] }
    requires some { 1 ≤ workers }
    ensures opens { IfOk result (λ ahead. OpensRound (B.made bodies.now) workers core.old core.new ahead.items) }
    ensures fails { IfErr result (FailsToOpenRound workers core.old core.new) }
    ensures quiet { IsTrue (B.quiet bodies.now) → IfOk result (λ ahead. NothingRead ahead.items) }
    ensures stands { (made : Meaning) (script : List SentOf) (start_buffers : AllWords)
        → StandsFor made script start_buffers core.old → StandsFor made script start_buffers core.new }
{
    let mut round = Vec::new(core.allocator());
    while round.len() < workers as usize {
        let Some(next) = open_next(core, bodies)? else {
            return Ok(round);
        };
        let Ok(()) = round.push(next) else {
            return Err(Why::Memory);
        };
    }
    Ok(round)
}

// Settles the launches that are out in the order of their opening.
fn settle_round<K: Keeping + Drop, B: Bodies>(
    core: &mut Core<K>,
    bodies: &B,
    round: Vec<Ahead>,
) -> Result<(), Why>
    requires graph { B.graph bodies.now ≡ core.old.shape }
    requires free { core.old.stopped ≡ None }
    requires guessed { AreAhead (B.made bodies.now) core.old core.old.outs round.items }
    ensures settles { OnOk result (SettlesAll (B.made bodies.now) core.old core.new) }
    ensures fails { IfErr result (FailsToSettleAll (B.made bodies.now) core.old core.new) }
    ensures alike { NoneIsShared core.old.shape → NothingRead round.items → KeepsEachGuess core.old core.new }
    ensures stands { (script : List SentOf) (start_buffers : AllWords)
        → StandsFor (B.made bodies.now) script start_buffers core.old → StandsFor (B.made bodies.now) script start_buffers core.new }
{
    unshared_stay();
    let mut queue = VecDeque::from_vec(round);
    while let Some(next) = queue.pop_front() {
        core.keeps_laws();
        settle_next(core, bodies, next)?;
    }
    Ok(())
}

// Opens a round and settles it.
fn run_round<K: Keeping + Drop, B: Bodies>(
    core: &mut Core<K>,
    bodies: &B,
    workers: u32,
) -> Result<(), Why>
    requires graph { B.graph bodies.now ≡ core.old.shape }
    requires free { core.old.stopped ≡ None }
    requires none_out { core.old.outs ≡ [] }
    requires some { 1 ≤ workers }
    ensures runs { OnOk result (RunsRound (B.made bodies.now) workers core.old core.new) }
    ensures ends { IfErr result (RoundEnds (B.made bodies.now) workers core.old core.new) }
    ensures kept { KeepsOneEachRound workers core.old core.new }
    ensures alike { IsTrue (B.quiet bodies.now) → NoneIsShared core.old.shape → KeepsEachGuess core.old core.new }
    ensures stands { (script : List SentOf) (start_buffers : AllWords)
        → StandsFor (B.made bodies.now) script start_buffers core.old → StandsFor (B.made bodies.now) script start_buffers core.new }
{
    let round = open_round(core, bodies, workers)?;
    settle_round(core, bodies, round)
}

/// Runs a core in rounds: each opens until so many launches are out or none comes next, guesses each over the same
/// buffers, and settles them in the order of opening.
///
/// After want of memory the core comes back as far as it came, and launches that were not settled are still out.
pub fn run_rounds<K: Keeping + Drop, B: Bodies>(core: Core<K>, bodies: &B, workers: u32) -> Ended<K>
    requires graph { B.graph bodies.now ≡ core.shape }
    requires none_out { core.outs ≡ [] }
    requires some { 1 ≤ workers }
    ensures ends { EndsBy (B.made bodies.now) workers core result.core result.why }
    ensures kept { KeepsOneEachRound workers core result.core }
    ensures alike { IsTrue (B.quiet bodies.now) → NoneIsShared core.shape → KeepsEachGuess core result.core }
    ensures stands { (script : List SentOf) (start_buffers : AllWords)
        → StandsFor (B.made bodies.now) script start_buffers core → StandsFor (B.made bodies.now) script start_buffers result.core }
{
    core.keeps_laws();
    let mut core = core;
    loop {
        if let Err(why) = run_round(&mut core, bodies, workers) {
            return Ended { core, why };
        }
    }
}
