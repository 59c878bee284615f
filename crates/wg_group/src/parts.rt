ghost use Rattle.std.specs.Prelude.{◌≡◌, ◌*◌, ◌&&◌, false, Some, length, slice_index};
ghost use Rattle.wg_code.specs.CodeMeaning.{node_does};
ghost use Rattle.wg_code.specs.PartMeaning.{first_lane, part_runs, parts_run};
ghost use Rattle.wg_code.specs.Quiet.{parts_quiet};
ghost use Rattle.wg_group.specs.Running.{Runs, Kept, rows_from};
ghost use Rattle.wg_group.specs.Quieter.{functions_quiet, is_quiet_part};

use crate::lanes::{Group, run_first, run_lanes};
use wg_code::Part;
use wg_machine::{Halt, Memory};
use wg_operations::Spare;
use wg_registers::{Outside, word};
use wg_words::Word;

/// A register of lane 0, 0 where there is no lane.
fn first_word(group: &Group<'_>, registers: &[Word], a: u32) -> Word
    requires sized { length registers.now ≡ group.now.lanes * group.now.node.now.registers }
    ensures { result ≡ slice_index (first_lane (rows_from 0 group.now.lanes group.now.node.now.registers registers.now)) a }
{
    let width = group.node.registers as usize;
    if group.lanes == 0 {
        0
    } else {
        word(&registers[..width], a)
    }
}

/// Runs parts in order.
#[cycle(parts)]
pub fn run_parts<M: Memory>(
    group: &Group<'_>,
    spare: &mut Spare,
    parts: &[Part],
    registers: &mut [Word],
    s: &mut Outside,
    mem: &mut M,
) -> Result<(), Halt>
    requires sized { length registers.old ≡ group.now.lanes * group.now.node.now.registers }
    ensures says { Runs (parts_run false (node_does false group.now.code.now group.now.node.now group.now.unit.now group.now.launch.now) parts.now (rows_from 0 group.now.lanes group.now.node.now.registers registers.old)) s.old (M.trace mem.old) result (Some (rows_from 0 group.now.lanes group.now.node.now.registers registers.new)) s.new (M.trace mem.new) }
    ensures kept { Kept (functions_quiet group.now.code.now.functions && parts_quiet parts.now) (M.trace mem.old) result (M.trace mem.new) }
{
    for part in parts {
        run_part(group, spare, part, registers, s, mem)?;
    }
    Ok(())
}

#[cycle(parts)]
fn run_part<M: Memory>(
    group: &Group<'_>,
    spare: &mut Spare,
    part: &Part,
    registers: &mut [Word],
    s: &mut Outside,
    mem: &mut M,
) -> Result<(), Halt>
    requires sized { length registers.old ≡ group.now.lanes * group.now.node.now.registers }
    ensures says { Runs (part_runs false (node_does false group.now.code.now group.now.node.now group.now.unit.now group.now.launch.now) part.now (rows_from 0 group.now.lanes group.now.node.now.registers registers.old)) s.old (M.trace mem.old) result (Some (rows_from 0 group.now.lanes group.now.node.now.registers registers.new)) s.new (M.trace mem.new) }
    ensures kept { Kept (functions_quiet group.now.code.now.functions && is_quiet_part part.now) (M.trace mem.old) result (M.trace mem.new) }
{
    match part {
        Part::Lanes { body } => run_lanes(group, spare, body.as_slice(), registers, s, mem),
        Part::First { body } => run_first(group, spare, body.as_slice(), registers, s, mem),
        Part::Choose {
            a,
            yes: first,
            no: second,
        } => {
            if first_word(group, registers, *a) != 0 {
                run_parts(group, spare, first.as_slice(), registers, s, mem)
            } else {
                run_parts(group, spare, second.as_slice(), registers, s, mem)
            }
        }
    }
}
