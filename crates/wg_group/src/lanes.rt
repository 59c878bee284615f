ghost use Rattle.std.specs.Prelude.{◌≡◌, ◌≢◌, ◌≤◌, ◌<◌, ◌+◌, ◌*◌, false, Some, length, ℕ};
ghost use Rattle.wg_code.specs.CodeMeaning.{node_does};
ghost use Rattle.wg_code.specs.PartMeaning.{lane_runs, lanes_run, first_runs};
ghost use Rattle.wg_control.specs.Silence.{reads_nothing};
ghost use Rattle.wg_group.specs.Running.{Runs, Kept, row_at, rows_from};

use std::alloc::Global;
use wg_code::{NodeCode, Op, RawCode};
use wg_control::{GroupSpot, around, run_body};
use wg_machine::{Halt, Launch, Memory, Unit};
use wg_operations::Spare;
use wg_registers::Outside;
use wg_words::Word;

/// What stays the same while the group of a launch runs: the code, that of its node, its unit, the launch, and the number of lanes.
#[derive(Clone, Copy)]
pub struct Group<'a> {
    pub alloc: Global,
    pub code: &'a RawCode,
    pub node: &'a NodeCode,
    pub unit: &'a Unit,
    pub launch: &'a Launch,
    pub lanes: u32,
}

/// Runs a body on the registers of a lane.
fn run_on<M: Memory>(
    group: &Group<'_>,
    spare: &mut Spare,
    body: &[Op],
    lane: u32,
    registers: &mut [Word],
    s: &mut Outside,
    mem: &mut M,
) -> Result<(), Halt>
    ensures says { Runs (lane_runs false (node_does false group.now.code.now group.now.node.now group.now.unit.now group.now.launch.now body.now lane) registers.old) s.old (M.trace mem.old) result (Some registers.new) s.new (M.trace mem.new) }
    ensures kept { Kept (reads_nothing group.now.code.now.functions body.now) (M.trace mem.old) result (M.trace mem.new) }
{
    let spot = GroupSpot {
        grid: group.launch.grid,
        group: group.launch.group,
        last: group.launch.last,
    };
    let around = around(group.alloc, group.code, group.node, group.unit, spot, lane);
    run_body(&around, spare, body, registers, s, mem)?;
    Ok(())
}

/// Runs a body on a lane; the lanes' registers lie one behind another.
fn run_row<M: Memory>(
    group: &Group<'_>,
    spare: &mut Spare,
    body: &[Op],
    lane: u32,
    registers: &mut [Word],
    s: &mut Outside,
    mem: &mut M,
) -> Result<(), Halt>
    requires inside { lane * group.now.node.now.registers + group.now.node.now.registers ≤ length registers.old }
    ensures says { Runs (lane_runs false (node_does false group.now.code.now group.now.node.now group.now.unit.now group.now.launch.now body.now lane) (row_at group.now.node.now.registers lane registers.old)) s.old (M.trace mem.old) result (Some (row_at group.now.node.now.registers lane registers.new)) s.new (M.trace mem.new) }
    ensures others { (k : ℕ) → k ≢ lane → row_at group.now.node.now.registers k registers.new ≡ row_at group.now.node.now.registers k registers.old }
    ensures kept { Kept (reads_nothing group.now.code.now.functions body.now) (M.trace mem.old) result (M.trace mem.new) }
{
    let width = group.node.registers as usize;
    let from = lane as usize * width;
    let row = &mut registers[from..from + width];
    run_on(group, spare, body, lane, row, s, mem)
}

/// Runs a body on all lanes, in their order.
pub fn run_lanes<M: Memory>(
    group: &Group<'_>,
    spare: &mut Spare,
    body: &[Op],
    registers: &mut [Word],
    s: &mut Outside,
    mem: &mut M,
) -> Result<(), Halt>
    requires sized { length registers.old ≡ group.now.lanes * group.now.node.now.registers }
    ensures says { Runs (lanes_run false (node_does false group.now.code.now group.now.node.now group.now.unit.now group.now.launch.now body.now) 0 (rows_from 0 group.now.lanes group.now.node.now.registers registers.old)) s.old (M.trace mem.old) result (Some (rows_from 0 group.now.lanes group.now.node.now.registers registers.new)) s.new (M.trace mem.new) }
    ensures kept { Kept (reads_nothing group.now.code.now.functions body.now) (M.trace mem.old) result (M.trace mem.new) }
{
    for lane in 0..group.lanes {
        run_row(group, spare, body, lane, registers, s, mem)?;
    }
    Ok(())
}

/// Runs a body on lane 0 alone.
pub fn run_first<M: Memory>(
    group: &Group<'_>,
    spare: &mut Spare,
    body: &[Op],
    registers: &mut [Word],
    s: &mut Outside,
    mem: &mut M,
) -> Result<(), Halt>
    requires sized { length registers.old ≡ group.now.lanes * group.now.node.now.registers }
    ensures says { Runs (first_runs false (node_does false group.now.code.now group.now.node.now group.now.unit.now group.now.launch.now body.now) (rows_from 0 group.now.lanes group.now.node.now.registers registers.old)) s.old (M.trace mem.old) result (Some (rows_from 0 group.now.lanes group.now.node.now.registers registers.new)) s.new (M.trace mem.new) }
    ensures kept { Kept (reads_nothing group.now.code.now.functions body.now) (M.trace mem.old) result (M.trace mem.new) }
{
    if group.lanes == 0 {
        return Ok(());
    }
    run_row(group, spare, body, 0, registers, s, mem)
}
