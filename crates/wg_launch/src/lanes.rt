ghost use Rattle.std.specs.Prelude.{◌≡◌, ◌<◌, length};
ghost use Rattle.wg_launch.specs.FirstLane.{IsFirst, with_first};
ghost use Rattle.wg_semantics.specs.LaunchMeaning.{entry_setting, entry_does, entry_test, has_returned, first_test, lane_runs, lanes_run};
ghost use Rattle.wg_values.specs.Pieces.{setting_of};
ghost use Rattle.wg_evaluation.specs.Says.{Says};

use std::alloc::Global;
use std::mem;
use wg_evaluation::Run;
use wg_machine::{Halt, Unit};
use wg_meaning::{body, test};
use wg_semantics::{Flow, Lane};
use wg_typed::{Typed, TypedExpr, TypedFunction, TypedStmt};
use wg_values::{Setting, Structs};
use wg_words::{Items, Word, WordLists};

/// The entry function of a launch, with its text, the text's structs, its threads and its unit, and whether it is the last of
/// a shared record.
#[derive(Clone, Copy)]
pub struct Entry<'a> {
    pub alloc: Global,
    pub text: &'a Typed,
    pub structs: &'a Structs<'a>,
    pub function: &'a TypedFunction,
    pub threads: [Word; 3],
    pub unit: &'a Unit,
    pub last: bool,
    ghost same: { structs.now ≡ text.now.structs },
}

fn setting_at<'a>(entry: &Entry<'a>, lane: u32) -> Setting<'a>
    ensures setting { setting_of result ≡ entry_setting entry.now.text.now entry.now.function.now entry.now.unit.now entry.now.last lane }
    ensures earlier { result.earlier.now ≡ entry.now.text.now.functions }
{
    Setting {
        alloc: entry.alloc,
        structs: entry.structs,
        handles: entry.function.handles.as_slice(),
        outputs: entry.unit.outputs.as_slice(),
        level: entry.unit.level,
        last: entry.last,
        lane,
        earlier: entry.text.functions.as_slice(),
    }
}

fn is_return(end: &Flow) -> bool
    ensures { result ≡ has_returned end.now }
{
    match end {
        Flow::Next | Flow::Broke | Flow::Continued => false,
        Flow::Returned { .. } => true,
    }
}

fn run_body(
    entry: &Entry<'_>,
    statements: &[TypedStmt],
    number: u32,
    run: &mut Run,
) -> Result<Flow, Halt>
    ensures { Says (entry_does entry.now.text.now entry.now.function.now entry.now.unit.now entry.now.last statements.now number run.old.state run.old.turns) result run.new.state run.new.turns }
{
    body(&setting_at(entry, number), statements, run)
}

/// Runs statements on a lane, unless it has returned. The variables of `run` are only where the lane's stand meanwhile.
fn run_lane(
    entry: &Entry<'_>,
    statements: &[TypedStmt],
    number: u32,
    lane: Lane,
    run: &mut Run,
) -> Result<Lane, Halt>
    ensures { Says (lane_runs (entry_does entry.now.text.now entry.now.function.now entry.now.unit.now entry.now.last statements.now number) lane run.old.state.world run.old.turns) result run.new.state.world run.new.turns }
{
    if lane.returned {
        return Ok(lane);
    }
    run.state.variables = lane.variables;
    let end = run_body(entry, statements, number, run)?;
    let variables = mem::replace(&mut run.state.variables, WordLists::new(entry.alloc));
    Ok(Lane {
        variables,
        returned: is_return(&end),
    })
}

/// Runs statements on the lanes, one after another.
#[tactic(auto, using(crate::proofs::LaneRuns::lanes_end))]
pub fn run_lanes(
    entry: &Entry<'_>,
    statements: &[TypedStmt],
    lanes: Items<Lane>,
    run: &mut Run,
) -> Result<Items<Lane>, Halt>
    ensures { Says (lanes_run (entry_does entry.now.text.now entry.now.function.now entry.now.unit.now entry.now.last statements.now) 0 lanes run.old.state.world run.old.turns) result run.new.state.world run.new.turns }
{
    let mut done = Items::new(entry.alloc);
    let mut number: u32 = 0;
    for lane in lanes.into_vec() {
        let lane = run_lane(entry, statements, number, lane, run)?;
        done.push(lane)?;
        number = match number.checked_add(1) {
            Some(next) => next,
            None => return Err(Halt::Memory),
        };
    }
    Ok(done)
}

/// Gives lane 0 the words of other variables, and its own ones back.
#[tactic(auto, using(crate::proofs::LaneRuns::set_first, crate::proofs::LaneRuns::is_first))]
fn swap_first(list: &mut Vec<Lane>, variables: WordLists) -> WordLists
    requires some { 0 < length list.old.items }
    ensures value { IsFirst result list.old.items }
    ensures after { list.new.items ≡ with_first variables list.old.items }
{
    let lane = &mut list[0];
    mem::replace(&mut lane.variables, variables)
}

fn run_test(entry: &Entry<'_>, e: &TypedExpr, run: &mut Run) -> Result<Word, Halt>
    ensures { Says (entry_test entry.now.text.now entry.now.function.now entry.now.unit.now entry.now.last e.now run.old.state run.old.turns) result run.new.state run.new.turns }
{
    test(&setting_at(entry, 0), e, run)
}

/// The word of a test on lane 0, and the lanes after it; 0 where there is no lane.
pub fn test_first(
    entry: &Entry<'_>,
    e: &TypedExpr,
    lanes: Items<Lane>,
    run: &mut Run,
) -> Result<(Word, Items<Lane>), Halt>
    ensures { Says (first_test (entry_test entry.now.text.now entry.now.function.now entry.now.unit.now entry.now.last e.now) lanes run.old.state.world run.old.turns) result run.new.state.world run.new.turns }
{
    let mut list = lanes.into_vec();
    if list.is_empty() {
        return Ok((0, Items::from_vec(list)));
    }
    run.state.variables = swap_first(&mut list, WordLists::new(entry.alloc));
    let word = run_test(entry, e, run)?;
    let variables = mem::replace(&mut run.state.variables, WordLists::new(entry.alloc));
    let _empty = swap_first(&mut list, variables);
    Ok((word, Items::from_vec(list)))
}
