ghost use Rattle.std.specs.Prelude.{◌≡◌};
ghost use Rattle.wg_journal.specs.Names.{unit_in};
ghost use Rattle.wg_text.specs.Refusals.{Yields, YieldsAnd};
ghost use Rattle.wg_journal.specs.Reading.{taken_at, launch_at, done_at, buffer_line_at, turns_at, launches_at, stop_at, line_at, is_some_rising as is_rising_and_some};

use crate::fields::Fields;
use crate::names::UnitNames;
use crate::{BufferLine, Done, Stop};
use std::alloc::Global;
use wg_machine::Entry;
use wg_text::{Refusal, printed};
use wg_words::Numbers;

/// What a launch takes: its unit, its group in the grid, and the records.
#[derive(Debug, Drop)]
pub struct Taken {
    pub unit: u32,
    pub group: [u32; 3],
    pub inputs: Numbers,
}

/// A line of a report.
#[derive(Debug, Drop)]
pub enum Line {
    Launch(Entry),
    Done(Done),
    Buffer(BufferLine),
    Stop(Stop),
}

/// Whether there are numbers, each above the one before it.
fn is_some_rising(numbers: &[u64]) -> bool
    ensures { result ≡ is_rising_and_some numbers.now }
{
    let Some((first, rest)) = numbers.split_first() else {
        return false;
    };
    let mut last = *first;
    for n in rest {
        if *n <= last {
            return false;
        }
        last = *n;
    }
    true
}

/// A unit, its group and the records that it takes.
#[tactic(auto, unfolding(crate::specs::Reading::taken_at))]
fn taken_of(alloc: Global, names: &UnitNames, fields: &mut Fields<'_>) -> Result<Taken, Refusal>
    ensures { YieldsAnd result fields.new (taken_at (unit_in names.now) fields.old) }
{
    let unit = fields.unit(names)?;
    let group = fields.group()?;
    fields.keyword(b"in")?;
    let inputs = fields.numbers(alloc)?;
    if !is_some_rising(inputs.as_slice()) {
        return Err(Refusal::Form);
    }
    Ok(Taken {
        unit,
        group,
        inputs,
    })
}

/// The launch at a place, of the fields after the first.
#[tactic(auto, unfolding(crate::specs::Reading::launch_at))]
fn launch_of(
    alloc: Global,
    names: &UnitNames,
    place: u64,
    first: &[u8],
    fields: &mut Fields<'_>,
) -> Result<Entry, Refusal>
    ensures { Yields result (launch_at (unit_in names.now) place first.now fields.old) }
{
    if printed(first) != Some(place) {
        return Err(Refusal::Form);
    }
    let Taken {
        unit,
        group,
        inputs,
    } = taken_of(alloc, names, fields)?;
    fields.keyword(b"out")?;
    let (first_out, outs) = fields.outs()?;
    Ok(Entry {
        unit,
        at: group,
        inputs,
        first_out,
        outs,
    })
}

#[tactic(auto, unfolding(crate::specs::Reading::done_at))]
fn done_of(fields: &mut Fields<'_>) -> Result<Done, Refusal>
    ensures { Yields result (done_at fields.old) }
{
    let launches = fields.named(b"launches")?;
    let records = fields.named(b"records")?;
    let denied = fields.named(b"denied")?;
    let peak = fields.named(b"peak")?;
    let bytes = fields.named(b"of")?;
    fields.end()?;
    Ok(Done {
        launches,
        records,
        denied,
        peak,
        bytes,
    })
}

#[tactic(auto, unfolding(crate::specs::Reading::buffer_line_at))]
fn buffer_of(alloc: Global, fields: &mut Fields<'_>) -> Result<BufferLine, Refusal>
    ensures { Yields result (buffer_line_at fields.old) }
{
    let name = fields.name(alloc)?;
    let count = fields.number()?;
    let words = fields.words(alloc)?;
    Ok(BufferLine { name, count, words })
}

#[tactic(auto, unfolding(crate::specs::Reading::turns_at))]
fn stopped_turns(alloc: Global, names: &UnitNames, fields: &mut Fields<'_>) -> Result<Stop, Refusal>
    ensures { Yields result (turns_at (unit_in names.now) fields.old) }
{
    let turns = fields.number()?;
    let Taken {
        unit,
        group,
        inputs,
    } = taken_of(alloc, names, fields)?;
    fields.end()?;
    Ok(Stop::Turns {
        turns,
        unit,
        group,
        inputs,
    })
}

#[tactic(auto, unfolding(crate::specs::Reading::launches_at))]
fn stopped_launches(fields: &mut Fields<'_>) -> Result<Stop, Refusal>
    ensures { Yields result (launches_at fields.old) }
{
    let launches = fields.number()?;
    fields.end()?;
    Ok(Stop::Launches { launches })
}

fn stop_of(alloc: Global, names: &UnitNames, fields: &mut Fields<'_>) -> Result<Stop, Refusal>
    ensures { Yields result (stop_at (unit_in names.now) fields.old) }
{
    let field = fields.next().ok_or(Refusal::Form)?;
    if field == b"turns".as_slice() {
        return stopped_turns(alloc, names, fields);
    }
    if field == b"launches".as_slice() {
        return stopped_launches(fields);
    }
    Err(Refusal::Form)
}

/// A line, as it may stand after so many launches.
pub fn line_of(
    alloc: Global,
    names: &UnitNames,
    place: u64,
    fields: &mut Fields<'_>,
) -> Result<Line, Refusal>
    ensures { Yields result (line_at (unit_in names.now) place fields.old) }
{
    let first = fields.next().ok_or(Refusal::Form)?;
    if first == b"done".as_slice() {
        return Ok(Line::Done(done_of(fields)?));
    }
    if first == b"buffer".as_slice() {
        return Ok(Line::Buffer(buffer_of(alloc, fields)?));
    }
    if first == b"stopped".as_slice() {
        return Ok(Line::Stop(stop_of(alloc, names, fields)?));
    }
    Ok(Line::Launch(launch_of(alloc, names, place, first, fields)?))
}
