ghost use Rattle.std.specs.Prelude.{◌≡◌, [], ◌*◌, ◌&&◌, IfOk, IfSome, Some, false, true, replicate};
ghost use Rattle.wg_machine.specs.Buffers.{Buffers};
ghost use Rattle.wg_machine.specs.GoodShape.{IsGoodShape};
ghost use Rattle.wg_machine.specs.LaunchMeaning.{FitsShape, outcome_of};
ghost use Rattle.wg_state.specs.Launching.{world_before, outcome_with};
ghost use Rattle.wg_state.specs.Lanes.{lanes_in};
ghost use Rattle.wg_state.specs.WordLists.{zeros};
ghost use Rattle.wg_code.specs.CodeMeaning.{node_ends, verdict, verdict_of};
ghost use Rattle.wg_code.specs.Quiet.{is_quiet, parts_quiet};
ghost use Rattle.wg_group.specs.Launching.{Launches};
ghost use Rattle.wg_group.specs.Quieter.{functions_quiet};
ghost use Rattle.wg_group.specs.Running.{Kept};

use crate::lanes::Group;
use crate::parts::run_parts;
use std::alloc::{AllocError, Global};
use wg_code::{Code, NodeCode, RawCode, tests_change_nothing};
use wg_machine::{Halt, Launch, Made, Memory, Unit};
use wg_operations::Spare;
use wg_registers::{Outside, SharedWords, Sharing, sharing_of, world_of, zero_words};
use wg_words::{Word, WordLists};
use wg_worlds::{first_world, made_by};

/// The number of lanes of a group of so many threads; none where it has more than 32 bits.
fn lane_count(threads: [Word; 3]) -> Option<u32>
    ensures { IfSome result (λ n. n ≡ lanes_in threads) }
{
    let [x, y, z] = threads;
    match x.checked_mul(y) {
        Some(layer) => layer.checked_mul(z),
        None => None,
    }
}

/// The registers of so many lanes before they run, one lane's behind another's.
fn first_registers(alloc: Global, lanes: u32, registers: u32) -> Result<Vec<Word>, AllocError>
    ensures { IfOk result (λ list. list.items ≡ replicate (lanes * registers) 0) }
{
    let count = lanes as usize * registers as usize;
    let mut list = Vec::with_capacity(alloc, count)?;
    for _i in 0..count {
        list.push(0)?;
    }
    Ok(list)
}

/// The groupshared words of a launch before it runs.
fn first_shared(alloc: Global, count: u32) -> Result<SharedWords, AllocError>
    ensures { IfOk result (λ list. list ≡ zeros count) }
{
    Ok(SharedWords::from_vec(zero_words(alloc, count)?.into_vec()))
}

/// What the lanes of a launch share before it runs.
fn first_sharing(alloc: Global, unit: &Unit, launch: &Launch) -> Result<Sharing, AllocError>
    ensures { IfOk result (λ world. world ≡ world_before [] unit.now launch.now []) }
{
    let none = WordLists::new(alloc);
    let world = first_world(alloc, none, unit, launch, WordLists::new(alloc))?;
    sharing_of(alloc, world)
}

/// What a launch of a unit made, by what its lanes left, and the turns that it had.
fn made_of(alloc: Global, unit: &Unit, turns: u64, left: Outside) -> Result<Made, AllocError>
    ensures { IfOk result (λ made. (buffers : Buffers) → outcome_with unit.now turns (record left.world { buffers = buffers }) left.turns ≡ outcome_of made buffers) }
{
    let Outside {
        world,
        turns: rest,
        ..
    } = left;
    let world = world_of(alloc, world)?;
    made_by(alloc, unit, turns, &world, rest)
}

/// Runs a launch of a unit by its node's code.
fn run_node<M: Memory>(
    alloc: Global,
    code: &RawCode,
    node: &NodeCode,
    unit: &Unit,
    launch: &Launch,
    mem: &mut M,
    turns: u64,
) -> Result<Made, Halt>
    ensures says { Launches (λ (buffers : Buffers). verdict_of unit.now turns (node_ends false code.now (Some node.now) unit.now launch.now buffers turns)) (M.trace mem.old) result (M.trace mem.new) }
    ensures kept { Kept (functions_quiet code.now.functions && parts_quiet node.now.parts) (M.trace mem.old) result (M.trace mem.new) }
{
    let Some(lanes) = lane_count(node.threads) else {
        return Err(Halt::Memory);
    };
    let group = Group {
        alloc,
        code,
        node,
        unit,
        launch,
        lanes,
    };
    let mut registers = first_registers(alloc, lanes, node.registers)?;
    let shared = first_shared(alloc, code.shared)?;
    let world = first_sharing(alloc, unit, launch)?;
    let mut s = Outside {
        shared,
        world,
        turns,
    };
    let mut spare = Spare::new(alloc);
    let parts = node.parts.as_slice();
    run_parts(&group, &mut spare, parts, &mut registers, &mut s, mem)?;
    Ok(made_of(alloc, unit, turns, s)?)
}

/// Runs a launch of code that is not tested as it runs.
fn run_code<M: Memory>(
    alloc: Global,
    code: &RawCode,
    launch: &Launch,
    mem: &mut M,
    turns: u64,
) -> Result<Made, Halt>
    ensures says { Launches (λ (buffers : Buffers). verdict false code.now launch.now buffers turns) (M.trace mem.old) result (M.trace mem.new) }
    ensures kept { Kept (is_quiet code.now) (M.trace mem.old) result (M.trace mem.new) }
{
    let Some(unit) = code.shape.units.get(launch.unit as usize) else {
        return Err(Halt::Memory);
    };
    let Some(node) = code.nodes.get(unit.node as usize) else {
        return Err(Halt::Memory);
    };
    run_node(alloc, code, node, unit, launch, mem, turns)
}

/// Runs a launch by its code: what it made, or `Halt::Turns` exactly where it would make one turn more.
///
/// After want of memory the memory is only dropped. Code that reads no shared buffer logs nothing.
pub fn run_group<M: Memory>(
    alloc: Global,
    code: &Code,
    launch: &Launch,
    mem: &mut M,
    turns: u64,
) -> Result<Made, Halt>
    requires good { IsGoodShape code.now.shape }
    requires fits { FitsShape code.now.shape launch.now }
    ensures says { Launches (λ (buffers : Buffers). verdict true code.now launch.now buffers turns) (M.trace mem.old) result (M.trace mem.new) }
    ensures kept { Kept (is_quiet code.now) (M.trace mem.old) result (M.trace mem.new) }
{
    tests_change_nothing();
    run_code(alloc, code.raw(), launch, mem, turns)
}
