ghost use Rattle.std.specs.Prelude.{◌≡◌, ℕ, ◌+◌, ◌<◌, ◌≤◌, ◌^◌, false, IsTrue, IfOk, OnOk, IsErrOf, List, Some, length, map, slice_get};
ghost use Rattle.wg_machine.specs.Effects.{Grows};
ghost use Rattle.wg_machine.specs.GoodShape.{IsGoodShape};
ghost use Rattle.wg_machine.specs.declared.bodies.Halt.TheVariants.{Turns};
ghost use Rattle.wg_machine.specs.declared.launch.Record.{Record as OfRecord};
ghost use Rattle.wg_machine.specs.declared.shape.Unit.{Unit as OfShape};
ghost use Rattle.wg_code.specs.CodeMeaning.{around_of as around_at};
ghost use Rattle.wg_code.specs.FrameMeaning.{launch_of, FrameFits, frame_after, with_words};
ghost use Rattle.wg_code.specs.Functions.{in_function, callees};
ghost use Rattle.wg_code.specs.OpMeaning.{ops_do};
ghost use Rattle.wg_code.specs.declared.code.NodeCode.{NodeCode as OfCode};
ghost use Rattle.wg_code.specs.declared.op.Op.{Op as Operation};
ghost use Rattle.wg_registers.specs.Given.{around_of};
ghost use Rattle.wg_operations.specs.Says.{Runs, Keeps};
ghost use Rattle.wg_lane.specs.Frames.{IsOpened};
ghost use Rattle.wg_lane.specs.LaneSays.{MakesFrame, SpendsFrame};
ghost use Rattle.wg_control.specs.Silence.{reads_nothing, LogsNothing};

use std::alloc::{AllocError, Global};
use wg_code::{Code, Frame, Grants, Op, Ops, RawCode, bodies_go_through};
use wg_control::{GroupSpot, around, run_body};
use wg_machine::{Halt, Memory, Record, Records};
use wg_operations::{End, Spare};
use wg_registers::{Around, Outside, SharedWords, sharing_of, world_of};
use wg_state::World;
use wg_words::{TryCopy, Word, WordLists, Words};

/// A frame without its lists, its lane's registers, and what the lane shares with the others.
#[derive(Drop)]
struct Opened {
    shell: Frame,
    registers: Vec<Word>,
    outside: Outside,
}

/// The words of records.
fn words_of(alloc: Global, records: &[Record]) -> Result<WordLists, AllocError>
    ensures { IfOk result (λ list. list ≡ map (λ (r : OfRecord). r.words) records.now) }
{
    let mut list = WordLists::new(alloc);
    for record in records {
        list.push(record.words.copy(alloc)?)?;
    }
    Ok(list)
}

/// Records with their numbers and with these words.
fn records_with(alloc: Global, records: &[Record], lists: WordLists) -> Result<Records, AllocError>
    ensures { IfOk result (λ list. list ≡ with_words records.now lists) }
{
    let mut list = Records::new(alloc);
    for words in lists.into_vec() {
        match records.get(list.len()) {
            Some(record) => list.push(Record {
                number: record.number,
                words,
            })?,
            None => (),
        }
    }
    Ok(list)
}

/// Takes a frame apart, where so many turns may be made.
fn open(alloc: Global, frame: Frame, turns: u64) -> Result<Opened, AllocError>
    ensures { IfOk result (IsOpened frame turns) }
{
    let world = World {
        shared: WordLists::new(alloc),
        inputs: words_of(alloc, frame.inputs.as_slice())?,
        grants: frame.grants,
        left: frame.left,
        denied: frame.denied,
        buffers: WordLists::new(alloc),
    };
    let outside = Outside {
        shared: SharedWords::from_vec(frame.shared.into_vec()),
        world: sharing_of(alloc, world)?,
        turns,
    };
    let shell = Frame {
        unit: frame.unit,
        group: frame.group,
        lane: frame.lane,
        registers: Words::new(alloc),
        shared: Words::new(alloc),
        inputs: frame.inputs,
        left: Words::new(alloc),
        grants: Grants::new(alloc),
        denied: 0,
        turns: frame.turns,
        last: frame.last,
        grid: frame.grid,
    };
    Ok(Opened {
        shell,
        registers: frame.registers.into_vec(),
        outside,
    })
}

/// Puts a frame together again, after so many more turns.
fn close(alloc: Global, opened: Opened, turns: u64) -> Result<Frame, AllocError>
    requires { opened.shell.turns + turns < 2 ^ 64 }
    ensures { IfOk result (λ after. after ≡ frame_after opened.shell opened.registers.items (opened.outside.shared, opened.outside.world) turns) }
{
    let Opened {
        shell,
        registers,
        outside,
    } = opened;
    let Outside { shared, world, .. } = outside;
    let world = world_of(alloc, world)?;
    let inputs = records_with(alloc, shell.inputs.as_slice(), world.inputs)?;
    Ok(Frame {
        unit: shell.unit,
        group: shell.group,
        lane: shell.lane,
        registers: Words::from_vec(registers),
        shared: Words::from_slice(alloc, shared.as_slice())?,
        inputs,
        left: world.left,
        grants: world.grants,
        denied: world.denied,
        turns: shell.turns + turns,
        last: shell.last,
        grid: shell.grid,
    })
}

/// What stays the same while a frame's lane runs its node's code.
fn around_frame<'a>(alloc: Global, code: &'a RawCode, frame: &Frame) -> Around<'a>
    requires unit { frame.now.unit < length code.now.shape.units }
    requires node { (u : OfShape) → slice_get code.now.shape.units frame.now.unit ≡ Some u → u.node < length code.now.nodes }
    ensures { (u : OfShape) (node : OfCode) → slice_get code.now.shape.units frame.now.unit ≡ Some u → slice_get code.now.nodes u.node ≡ Some node
        → around_of result ≡ around_at code.now node u (launch_of frame.now) frame.now.lane }
{
    let unit = &code.shape.units.as_slice()[frame.unit as usize];
    let node = &code.nodes.as_slice()[unit.node as usize];
    let spot = GroupSpot {
        grid: frame.grid,
        group: frame.group,
        last: frame.last,
    };
    around(alloc, code, node, unit, spot, frame.lane)
}

/// Runs a body on a frame that was taken apart.
fn run_opened<M: Memory>(
    around: &Around<'_>,
    body: &[Op],
    opened: &mut Opened,
    mem: &mut M,
) -> Result<End, Halt>
    ensures says { Runs (ops_do false (around_of around.now) (callees false (in_function (around_of around.now)) 33) body.now) opened.old.registers.items opened.old.outside (M.trace mem.old) result opened.new.registers.items opened.new.outside (M.trace mem.new) }
    ensures shell { opened.new.shell ≡ opened.old.shell }
    ensures turns { OnOk result (opened.new.outside.turns ≤ opened.old.outside.turns) }
    ensures grows { Keeps result (M.trace mem.old) (M.trace mem.new) }
    ensures silent { IsTrue (reads_nothing around.now.functions.now body.now) → LogsNothing result (M.trace mem.old) (M.trace mem.new) }
{
    let mut spare = Spare::new(around.alloc);
    let registers = &mut opened.registers;
    let outside = &mut opened.outside;
    run_body(around, &mut spare, body, registers, outside, mem)
}

/// Runs a body of a part on a frame, where so many turns may still be made. The frame's `turns` grow by those that were made.
///
/// After an error the memory is only dropped.
pub fn run_lane<M: Memory>(
    alloc: Global,
    code: &Code,
    body: &Ops,
    frame: Frame,
    mem: &mut M,
    turns: u64,
) -> Result<Frame, Halt>
    requires good { IsGoodShape code.now.shape }
    requires fits { FrameFits code.now body.now frame }
    requires turns { frame.turns + turns < 2 ^ 64 }
    ensures makes { IfOk result (MakesFrame code.now body.now frame turns (M.trace mem.old) (M.trace mem.new)) }
    ensures spends { IsErrOf result Turns → SpendsFrame code.now body.now frame turns (M.trace mem.old) (M.trace mem.new) }
    ensures turns { IfOk result (λ after. frame.turns ≤ after.turns × after.turns ≤ frame.turns + turns) }
    ensures fits { (other : List Operation) → FrameFits code.now other frame → IfOk result (FrameFits code.now other) }
    ensures grows { OnOk result (Grows (M.trace mem.old) (M.trace mem.new)) }
    ensures grows_when_spent { IsErrOf result Turns → Grows (M.trace mem.old) (M.trace mem.new) }
    ensures silent { IsTrue (reads_nothing code.now.functions body.now) → OnOk result ((M.trace mem.new).log ≡ (M.trace mem.old).log) }
    ensures silent_when_spent { IsTrue (reads_nothing code.now.functions body.now) → IsErrOf result Turns → (M.trace mem.new).log ≡ (M.trace mem.old).log }
{
    bodies_go_through();
    let around = around_frame(alloc, code.raw(), &frame);
    let mut opened = open(alloc, frame, turns)?;
    run_opened(&around, body.as_slice(), &mut opened, mem)?;
    let made = turns - opened.outside.turns;
    Ok(close(alloc, opened, made)?)
}
