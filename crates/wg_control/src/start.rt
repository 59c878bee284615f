ghost use Rattle.std.specs.Prelude.{◌≡◌};
ghost use Rattle.wg_machine.specs.declared.launch.Launch.{Launch as Launched};
ghost use Rattle.wg_code.specs.CodeMeaning.{around_of as around_at, numbers_of};
ghost use Rattle.wg_registers.specs.Given.{around_of};

use std::alloc::Global;
use wg_code::{NodeCode, RawCode};
use wg_machine::Unit;
use wg_registers::Around;
use wg_state::{coordinates, dispatch_place};
use wg_words::Word;

/// The group of a lane in its record's grid, and whether it is the record's last.
#[derive(Clone, Copy)]
pub struct GroupSpot {
    pub grid: [Word; 3],
    pub group: u32,
    pub last: bool,
}

/// The ten system values of a lane of a group.
fn numbers(group: [Word; 3], threads: [Word; 3], lane: u32) -> [Word; 10]
    ensures { result ≡ numbers_of group threads lane }
{
    let at = coordinates(threads, lane);
    let place = dispatch_place(group, threads, lane);
    [
        group[0], group[1], group[2], at[0], at[1], at[2], place[0], place[1], place[2], lane,
    ]
}

/// What stays the same while a lane of a launch runs a node's code.
pub fn around<'a>(
    alloc: Global,
    code: &'a RawCode,
    node: &'a NodeCode,
    unit: &'a Unit,
    spot: GroupSpot,
    lane: u32,
) -> Around<'a>
    ensures { (launch : Launched) → launch.grid ≡ spot.grid → launch.group ≡ spot.group → launch.last ≡ spot.last → around_of result ≡ around_at code.now node.now unit.now launch lane }
{
    let group = coordinates(spot.grid, spot.group);
    Around {
        alloc,
        functions: code.functions.as_slice(),
        buffers: code.shape.buffers.len() as u64,
        handles: node.handles.as_slice(),
        outputs: unit.outputs.as_slice(),
        level: unit.level,
        lane,
        numbers: numbers(group, node.threads, lane),
        last: spot.last,
    }
}
