ghost use Rattle.std.specs.Prelude.{◌≤◌, ◌<◌, ◌≡◌, false, true, IsTrue, IfOk, OnOk, ◌&&◌, slice_get};
ghost use Rattle.std.specs.Option.{option_copied};
ghost use Rattle.wg_code.specs.Flow.{loop as looped, one_turn as turned, call as called};
ghost use Rattle.wg_code.specs.Functions.{in_function, callees, body_runs};
ghost use Rattle.wg_code.specs.OpMeaning.{op_does, ops_do};
ghost use Rattle.wg_registers.specs.Given.{around_of};
ghost use Rattle.wg_operations.specs.Says.{Runs, Keeps};
ghost use Rattle.wg_leaves.specs.Going.{Kept, is_quiet_op};
ghost use Rattle.wg_control.specs.Loops.{functions_quiet, loop_reads_nothing, comes_again};
ghost use Rattle.wg_control.specs.Silence.{reads_nothing, LogsNothing};

use crate::simple::{run_front, run_set};
use wg_code::{Function, Op};
use wg_leaves::run_leaf;
use wg_machine::{Halt, Memory};
use wg_operations::{End, Spare, goes_on, goes_through, put_results, window};
use wg_registers::{Around, Outside, for_function, word};
use wg_words::{Word, Words};

/// The parts of a `Loop`.
#[derive(Clone, Copy)]
struct LoopParts<'a> {
    test: &'a [Op],
    a: u32,
    body: &'a [Op],
    step: &'a [Op],
}

/// The parts of a `Call`.
#[derive(Clone, Copy)]
struct CallParts<'a> {
    function: u32,
    args: &'a [u32],
    results: &'a [u32],
}

/// Whether a loop takes another turn after one that ended so.
fn is_again(end: End) -> bool
    ensures { result ≡ comes_again end }
{
    match end {
        End::Again => true,
        End::Through | End::Out => false,
    }
}

fn function_at<'a>(around: &Around<'a>, number: u32) -> Option<&'a Function>
    ensures { option_copied result ≡ slice_get around.now.functions.now number }
{
    around.functions.get(number as usize)
}

/// Runs operations until one leaves them, where calls nest at most so deep.
#[cycle(body)]
#[inline(always)]
fn run_ops<M: Memory>(
    around: &Around<'_>,
    depth: u32,
    spare: &mut Spare,
    ops: &[Op],
    registers: &mut [Word],
    s: &mut Outside,
    mem: &mut M,
) -> Result<End, Halt>
    ensures says { Runs (ops_do false (around_of around.now) (callees false (in_function (around_of around.now)) depth) ops.now) registers.old s.old (M.trace mem.old) result registers.new s.new (M.trace mem.new) }
    ensures kept { Kept (reads_nothing around.now.functions.now ops.now) s.old.turns s.new.turns (M.trace mem.old) result (M.trace mem.new) }
{
    let done = run_front(ops, registers);
    if done >= ops.len() {
        return Ok(End::Through);
    }
    run_each(around, depth, spare, &ops[done..], registers, s, mem)
}

/// Runs operations until one leaves them, one by one.
#[cycle(body)]
#[inline(never)]
fn run_each<M: Memory>(
    around: &Around<'_>,
    depth: u32,
    spare: &mut Spare,
    ops: &[Op],
    registers: &mut [Word],
    s: &mut Outside,
    mem: &mut M,
) -> Result<End, Halt>
    ensures says { Runs (ops_do false (around_of around.now) (callees false (in_function (around_of around.now)) depth) ops.now) registers.old s.old (M.trace mem.old) result registers.new s.new (M.trace mem.new) }
    ensures kept { Kept (reads_nothing around.now.functions.now ops.now) s.old.turns s.new.turns (M.trace mem.old) result (M.trace mem.new) }
{
    for op in ops {
        let end = run_op(around, depth, spare, op, registers, s, mem)?;
        if !goes_through(end) {
            return Ok(end);
        }
    }
    Ok(End::Through)
}

/// Runs one operation.
#[cycle(body)]
#[inline(always)]
fn run_op<M: Memory>(
    around: &Around<'_>,
    depth: u32,
    spare: &mut Spare,
    op: &Op,
    registers: &mut [Word],
    s: &mut Outside,
    mem: &mut M,
) -> Result<End, Halt>
    ensures says { Runs (op_does false (around_of around.now) (callees false (in_function (around_of around.now)) depth) op.now) registers.old s.old (M.trace mem.old) result registers.new s.new (M.trace mem.new) }
    ensures kept { Kept (functions_quiet around.now.functions.now && is_quiet_op op.now) s.old.turns s.new.turns (M.trace mem.old) result (M.trace mem.new) }
{
    if run_set(op, registers) {
        return Ok(End::Through);
    }
    run_other(around, depth, spare, op, registers, s, mem)
}

/// Runs any operation.
#[cycle(body)]
#[inline(never)]
fn run_other<M: Memory>(
    around: &Around<'_>,
    depth: u32,
    spare: &mut Spare,
    op: &Op,
    registers: &mut [Word],
    s: &mut Outside,
    mem: &mut M,
) -> Result<End, Halt>
    ensures says { Runs (op_does false (around_of around.now) (callees false (in_function (around_of around.now)) depth) op.now) registers.old s.old (M.trace mem.old) result registers.new s.new (M.trace mem.new) }
    ensures kept { Kept (functions_quiet around.now.functions.now && is_quiet_op op.now) s.old.turns s.new.turns (M.trace mem.old) result (M.trace mem.new) }
{
    match op {
        Op::If {
            a,
            yes: first,
            no: second,
        } => {
            let first = first.as_slice();
            let second = second.as_slice();
            if word(registers, *a) != 0 {
                run_ops(around, depth, spare, first, registers, s, mem)
            } else {
                run_ops(around, depth, spare, second, registers, s, mem)
            }
        }
        Op::Loop {
            test,
            a,
            body,
            step,
        } => {
            let test = test.as_slice();
            let body = body.as_slice();
            let step = step.as_slice();
            let parts = LoopParts {
                test,
                a: *a,
                body,
                step,
            };
            run_loop(around, depth, spare, &parts, registers, s, mem)
        }
        Op::Break => Ok(End::Out),
        Op::Continue => Ok(End::Again),
        Op::Call {
            function,
            args,
            results,
        } => {
            let args = args.as_slice();
            let results = results.as_slice();
            let parts = CallParts {
                function: *function,
                args,
                results,
            };
            run_call(around, depth, spare, &parts, registers, s, mem)
        }
        _ => run_leaf(around, op, registers, s, mem),
    }
}

/// Runs a loop, turn after turn.
#[cycle(body)]
#[inline(never)]
fn run_loop<M: Memory>(
    around: &Around<'_>,
    depth: u32,
    spare: &mut Spare,
    parts: &LoopParts<'_>,
    registers: &mut [Word],
    s: &mut Outside,
    mem: &mut M,
) -> Result<End, Halt>
    ensures says { let callees = callees false (in_function (around_of around.now)) depth in
        Runs (looped (ops_do false (around_of around.now) callees parts.now.test.now) parts.now.a (ops_do false (around_of around.now) callees parts.now.body.now) (ops_do false (around_of around.now) callees parts.now.step.now)) registers.old s.old (M.trace mem.old) result registers.new s.new (M.trace mem.new) }
    ensures kept { Kept (loop_reads_nothing around.now.functions.now parts.now.test.now parts.now.body.now parts.now.step.now) s.old.turns s.new.turns (M.trace mem.old) result (M.trace mem.new) }
{
    'turns: loop {
        let end = run_turn(around, depth, spare, parts, registers, s, mem)?;
        if !is_again(end) {
            return Ok(End::Through);
        }
    }
}

/// A loop's test and, where it holds, a turn: `Again` where the loop goes on.
#[cycle(body)]
fn run_turn<M: Memory>(
    around: &Around<'_>,
    depth: u32,
    spare: &mut Spare,
    parts: &LoopParts<'_>,
    registers: &mut [Word],
    s: &mut Outside,
    mem: &mut M,
) -> Result<End, Halt>
    ensures says { let callees = callees false (in_function (around_of around.now)) depth in
        Runs (turned (ops_do false (around_of around.now) callees parts.now.test.now) parts.now.a (ops_do false (around_of around.now) callees parts.now.body.now) (ops_do false (around_of around.now) callees parts.now.step.now)) registers.old s.old (M.trace mem.old) result registers.new s.new (M.trace mem.new) }
    ensures kept { Kept (loop_reads_nothing around.now.functions.now parts.now.test.now parts.now.body.now parts.now.step.now) s.old.turns s.new.turns (M.trace mem.old) result (M.trace mem.new) }
    ensures takes { IfOk result (λ end. comes_again end ≡ true → s.new.turns < s.old.turns) }
{
    let tested = run_ops(around, depth, spare, parts.test, registers, s, mem)?;
    if !goes_on(tested) || word(registers, parts.a) == 0 {
        return Ok(End::Through);
    }
    if s.turns == 0 {
        return Err(Halt::Turns);
    }
    s.turns -= 1;
    let ran = run_ops(around, depth, spare, parts.body, registers, s, mem)?;
    if !goes_on(ran) {
        return Ok(End::Through);
    }
    let stepped = run_ops(around, depth, spare, parts.step, registers, s, mem)?;
    if goes_on(stepped) {
        Ok(End::Again)
    } else {
        Ok(End::Through)
    }
}

/// Calls a function by its number; one that is not there gives nothing back.
#[cycle(body)]
#[inline(never)]
fn run_call<M: Memory>(
    around: &Around<'_>,
    depth: u32,
    spare: &mut Spare,
    parts: &CallParts<'_>,
    registers: &mut [Word],
    s: &mut Outside,
    mem: &mut M,
) -> Result<End, Halt>
    ensures says { Runs (called (callees false (in_function (around_of around.now)) depth parts.now.function) parts.now.args.now parts.now.results.now) registers.old s.old (M.trace mem.old) result registers.new s.new (M.trace mem.new) }
    ensures kept { Kept (functions_quiet around.now.functions.now) s.old.turns s.new.turns (M.trace mem.old) result (M.trace mem.new) }
{
    if depth == 0 {
        return Ok(End::Through);
    }
    match function_at(around, parts.function) {
        None => Ok(End::Through),
        Some(f) => run_function(around, depth - 1, spare, f, parts, registers, s, mem),
    }
}

/// Runs a function on registers of its own and copies its results back.
#[cycle(body)]
fn run_function<M: Memory>(
    around: &Around<'_>,
    depth: u32,
    spare: &mut Spare,
    f: &Function,
    parts: &CallParts<'_>,
    registers: &mut [Word],
    s: &mut Outside,
    mem: &mut M,
) -> Result<End, Halt>
    ensures says { Runs (called (body_runs false (in_function (around_of around.now)) (callees false (in_function (around_of around.now)) depth) f.now) parts.now.args.now parts.now.results.now) registers.old s.old (M.trace mem.old) result registers.new s.new (M.trace mem.new) }
    ensures kept { Kept (reads_nothing around.now.functions.now f.now.body) s.old.turns s.new.turns (M.trace mem.old) result (M.trace mem.new) }
{
    let inner = for_function(around);
    let mut own = window(around.alloc, spare, f.registers, parts.args, registers)?;
    run_ops(&inner, depth, spare, f.body.as_slice(), &mut own, s, mem)?;
    let first = f.registers.saturating_sub(f.results);
    put_results(registers, parts.results, &own, first);
    spare.push(Words::from_vec(own))?;
    Ok(End::Through)
}

/// Runs a body of a node on a lane's registers, without tests of what it names.
///
/// `spare` has the lists of registers of calls that have ended; all bodies of a launch share one.
pub fn run_body<M: Memory>(
    around: &Around<'_>,
    spare: &mut Spare,
    body: &[Op],
    registers: &mut [Word],
    s: &mut Outside,
    mem: &mut M,
) -> Result<End, Halt>
    ensures says { Runs (ops_do false (around_of around.now) (callees false (in_function (around_of around.now)) 33) body.now) registers.old s.old (M.trace mem.old) result registers.new s.new (M.trace mem.new) }
    ensures turns { OnOk result (s.new.turns ≤ s.old.turns) }
    ensures grows { Keeps result (M.trace mem.old) (M.trace mem.new) }
    ensures silent { IsTrue (reads_nothing around.now.functions.now body.now) → LogsNothing result (M.trace mem.old) (M.trace mem.new) }
{
    run_ops(around, 33, spare, body, registers, s, mem)
}
