ghost use Rattle.std.specs.Prelude.{◌≡◌, slice_get};
ghost use Rattle.wg_code.specs.Functions.{in_function};
ghost use Rattle.wg_code.specs.Records.{owner_of, output_in};
ghost use Rattle.wg_registers.specs.Given.{around_of};

use std::alloc::Global;
use wg_code::{Function, Handle};
use wg_machine::Output;
use wg_words::Word;

/// What stays the same while a lane's code runs: the functions, how many buffers the graph has, the node's handles, its
/// unit's outputs and level, the lane, its ten system values, and whether the launch is the last of a shared record.
#[derive(Clone, Copy)]
pub struct Around<'a> {
    pub alloc: Global,
    pub functions: &'a [Function],
    pub buffers: u64,
    pub handles: &'a [Handle],
    pub outputs: &'a [Output],
    pub level: u32,
    pub lane: u32,
    pub numbers: [Word; 10],
    pub last: bool,
}

/// The same for a function, which has no outputs and no handles.
pub fn for_function<'a>(around: &Around<'a>) -> Around<'a>
    ensures { around_of result ≡ in_function (around_of around.now) }
{
    Around {
        alloc: around.alloc,
        functions: around.functions,
        buffers: around.buffers,
        handles: &[],
        outputs: &[],
        level: around.level,
        lane: around.lane,
        numbers: around.numbers,
        last: around.last,
    }
}

/// The lane whose requests a handle stands for.
pub fn owner(around: &Around<'_>, handle: u32) -> u32
    ensures { result ≡ owner_of (slice_get around.now.handles.now handle) around.now.lane }
{
    match around.handles.get(handle as usize) {
        None => around.lane,
        Some(h) => if h.group { 0 } else { around.lane },
    }
}

/// The output of a handle.
pub fn handle_output(around: &Around<'_>, handle: u32) -> u32
    ensures { result ≡ output_in (slice_get around.now.handles.now handle) }
{
    match around.handles.get(handle as usize) {
        None => 0,
        Some(h) => h.output,
    }
}
