ghost use Rattle.wg_machine.specs.GoodShape.{IsGoodShape};
ghost use Rattle.wg_script.specs.Fit.{IsFit};

use crate::answer::Answer;
use std::alloc::Global;
use std::fmt;
use wg_counters::Counters;
use wg_journal::Journal;
use wg_machine::Shape;
use wg_plain::{Replayed, Rest, replay};
use wg_script::Script;

/// The words of the buffers, and the live records by number, unit, words and how many of their groups have not run.
pub fn write_rest<W: fmt::Write>(f: &mut fmt::Formatter<W>, rest: &Rest) -> fmt::Result {
    let Rest {
        bag,
        next,
        buffers,
        denied,
        peak,
    } = rest;
    write!(f, "next {next} denied {denied} peak {peak}, buffers")?;
    for words in buffers.as_slice() {
        write!(f, " {:?}", words.as_slice())?;
    }
    f.write_str(", live")?;
    for live in bag.as_slice() {
        let words = live.words.as_slice();
        let groups = live.groups.len();
        write!(f, " {}:{}:{words:?}:{groups}", live.number, live.unit)?;
    }
    Ok(())
}

/// What the launches of a journal leave, by the plain program of the machine. The buffers begin as the words that the
/// script gives, without the zeros behind them.
#[tactic(auto, using(crate::proofs::Short::fit_is_short))]
pub fn left_by(
    alloc: Global,
    shape: Shape,
    turns: u64,
    script: &Script,
    journal: &Journal,
) -> Answer
    requires good { IsGoodShape shape }
    requires fit { IsFit shape script.now }
{
    let entries = journal.entries.as_slice();
    if u32::try_from(entries.len()).is_err() {
        return Answer::Memory;
    }
    let bodies = Counters { alloc, shape };
    let records = script.entries.as_slice();
    let start = script.start.as_slice();
    match replay(alloc, &bodies, records, start, turns, entries) {
        Ok(Replayed::Run(rest)) => Answer::Left(rest),
        Ok(Replayed::NoStep { entry }) => Answer::NoStep { entry },
        Err(_) => Answer::Memory,
    }
}
