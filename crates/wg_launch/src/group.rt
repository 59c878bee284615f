ghost use Rattle.std.specs.Prelude.{◌≡◌, IfOk, IfSome, [], List, Some, None, map, slice_get, if◌then◌else◌};
ghost use Rattle.wg_machine.specs.declared.launch.Launch.{Launch as OfLaunch};
ghost use Rattle.wg_machine.specs.declared.launch.Record.{Record as OfRecord};
ghost use Rattle.wg_machine.specs.LaunchMeaning.{outcome_of};
ghost use Rattle.wg_state.specs.Lanes.{coordinates_of, lanes_in};
ghost use Rattle.wg_state.specs.Launching.{world_before, new_words, outcome_with, does_nothing};
ghost use Rattle.wg_semantics.specs.LaunchMeaning.{first_values, first_lanes, first_shared, function_made, body_made, made};
ghost use Rattle.wg_launch.specs.Launches.{Launches};

use crate::lanes::Entry;
use crate::phases::run_block;
use crate::sent::all_sent;
use crate::start::{LaneSpot, shared, values_at_first};
use std::alloc::{AllocError, Global};
use wg_evaluation::Run;
use wg_machine::{Halt, Launch, Made, Record, SentList, Shape, Unit};
use wg_semantics::{Body, Lane, State};
use wg_state::{World, coordinates};
use wg_typed::{Typed, TypedFunction};
use wg_values::Structs;
use wg_words::{Items, TryCopy, Word, WordLists, Words};

/// The number of lanes of a group of so many threads; none where it has more than 32 bits.
fn lane_count(threads: [Word; 3]) -> Option<u32>
    ensures { IfSome result (λ n. n ≡ lanes_in threads) }
{
    let [x, y, z] = threads;
    match x.checked_mul(y) {
        Some(layer) => layer.checked_mul(z),
        None => None,
    }
}

/// The lanes of a group before they run.
fn lanes_of(entry: &Entry<'_>, group: [Word; 3], count: u32) -> Result<Items<Lane>, AllocError>
    ensures { IfOk result (λ list. list ≡ first_lanes (first_values entry.now.text.now.structs entry.now.function.now group entry.now.threads) 0 count) }
{
    let threads = entry.threads;
    let mut list = Items::new(entry.alloc);
    for lane in 0..count {
        let at = LaneSpot {
            group,
            threads,
            lane,
        };
        let variables = values_at_first(entry.alloc, entry.structs, entry.function, at)?;
        list.push(Lane {
            variables,
            returned: false,
        })?;
    }
    Ok(list)
}

fn record_words(alloc: Global, records: &[Record]) -> Result<WordLists, AllocError>
    ensures { IfOk result (λ list. list ≡ map (λ (r : OfRecord). r.words) records.now) }
{
    let mut list = WordLists::new(alloc);
    for record in records {
        list.push(record.words.copy(alloc)?)?;
    }
    Ok(list)
}

/// What the lanes share before they run.
fn world_of(entry: &Entry<'_>, launch: &Launch, buffers: WordLists) -> Result<World, AllocError>
    ensures { IfOk result (λ w. w ≡ world_before (first_shared entry.now.text.now.structs entry.now.text.now.shared) entry.now.unit.now launch.now buffers) }
{
    let alloc = entry.alloc;
    Ok(World {
        shared: shared(alloc, entry.structs, entry.text.shared.as_slice())?,
        inputs: record_words(alloc, launch.records.as_slice())?,
        grants: Items::new(alloc),
        left: entry.unit.budgets.copy(alloc)?,
        denied: 0,
        buffers,
    })
}

/// The new words of a record that the groups of a shared unit share.
fn shared_words(
    alloc: Global,
    is_shared: bool,
    inputs: &WordLists,
) -> Result<Option<Words>, AllocError>
    ensures { IfOk result (λ words. words ≡ new_words is_shared inputs.now) }
{
    if !is_shared {
        return Ok(None);
    }
    match inputs.get(0) {
        Some(words) => Ok(Some(words.copy(alloc)?)),
        None => Ok(Some(Words::new(alloc))),
    }
}

/// What a launch made, after its lanes.
fn made_by(
    alloc: Global,
    unit: &Unit,
    turns: u64,
    run: Run,
) -> Result<(Made, WordLists), AllocError>
    ensures { IfOk result (λ done. outcome_with unit.now turns run.state.world run.turns ≡ outcome_of done.0 done.1) }
{
    let Run { state, turns: left } = run;
    let State { world, .. } = state;
    let World {
        inputs,
        grants,
        denied,
        buffers,
        ..
    } = world;
    let made = Made {
        sent: all_sent(alloc, unit.outputs.as_slice(), grants.as_slice())?,
        denied,
        turns: turns.saturating_sub(left),
        shared: shared_words(alloc, unit.shared, &inputs)?,
    };
    Ok((made, buffers))
}

fn run_entry(
    entry: &Entry<'_>,
    launch: &Launch,
    buffers: WordLists,
    turns: u64,
) -> Result<(Made, WordLists), Halt>
    requires last { entry.now.last ≡ launch.now.last }
    ensures { Launches (function_made entry.now.text.now (Some entry.now.function.now) entry.now.threads entry.now.unit.now launch.now buffers turns) result }
{
    let count = match lane_count(entry.threads) {
        Some(count) => count,
        None => return Err(Halt::Memory),
    };
    let group = coordinates(launch.grid, launch.group);
    let lanes = lanes_of(entry, group, count)?;
    let world = world_of(entry, launch, buffers)?;
    let state = State {
        variables: WordLists::new(entry.alloc),
        world,
    };
    let mut run = Run { state, turns };
    match run_block(entry, entry.function.body.as_slice(), lanes, &mut run) {
        Ok(_) => (),
        Err(halt) => return Err(halt),
    }
    Ok(made_by(entry.alloc, entry.unit, turns, run)?)
}

/// What a launch does that does nothing.
fn nothing(
    alloc: Global,
    is_shared: bool,
    launch: &Launch,
    buffers: WordLists,
    turns: u64,
) -> Result<(Made, WordLists), AllocError>
    ensures { IfOk result (λ done. does_nothing is_shared launch.now buffers turns ≡ Some (outcome_of done.0 done.1)) }
{
    let inputs = record_words(alloc, launch.records.as_slice())?;
    let made = Made {
        sent: SentList::new(alloc),
        denied: 0,
        turns: 0,
        shared: shared_words(alloc, is_shared, &inputs)?,
    };
    Ok((made, buffers))
}

fn launch_body(
    alloc: Global,
    text: &Typed,
    body: Body,
    unit: &Unit,
    launch: &Launch,
    buffers: WordLists,
    turns: u64,
) -> Result<(Made, WordLists), Halt>
    ensures { Launches (body_made text.now (Some body) unit.now launch.now buffers turns) result }
{
    let structs = Structs::new(alloc, &text.structs)?;
    match text.functions.as_slice().get(body.function as usize) {
        Some(function) => run_entry(
            &Entry {
                alloc,
                text,
                structs: &structs,
                function,
                threads: body.threads,
                unit,
                last: launch.last,
            },
            launch,
            buffers,
            turns,
        ),
        None => Ok(nothing(alloc, unit.shared, launch, buffers, turns)?),
    }
}

/// What a launch on a shape does to the buffers within so many turns, where its nodes have these bodies by their
/// numbers: what it made, and the buffers after it.
///
/// `Halt::Turns` where it would make one turn more. A node without a body does nothing.
pub fn launch(
    alloc: Global,
    text: &Typed,
    bodies: &[Body],
    shape: &Shape,
    launch: &Launch,
    buffers: WordLists,
    turns: u64,
) -> Result<(Made, WordLists), Halt>
    ensures { Launches (made text.now bodies.now shape.now launch.now buffers turns) result }
{
    let unit = match shape.units.get(launch.unit as usize) {
        Some(unit) => unit,
        None => return Ok(nothing(alloc, false, launch, buffers, turns)?),
    };
    match bodies.get(unit.node as usize) {
        Some(body) => launch_body(alloc, text, *body, unit, launch, buffers, turns),
        None => Ok(nothing(alloc, unit.shared, launch, buffers, turns)?),
    }
}
