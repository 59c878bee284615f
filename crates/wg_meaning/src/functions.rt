ghost use Rattle.std.specs.Prelude.{◌≡◌, ◌≤◌, ◌<◌, ◌↔◌, suc, IfOk, IsTrue};
ghost use Rattle.wg_semantics.specs.Calls.{callee_at, on_world};
ghost use Rattle.wg_semantics.specs.FunctionMeaning.{result_words, result_of, function_does};
ghost use Rattle.wg_values.specs.Pieces.{setting_of};
ghost use Rattle.wg_evaluation.specs.Says.{Runs, within, callees_in};

use crate::stmt::block;
use std::alloc::AllocError;
use std::mem;
use wg_evaluation::{Calls, Run, function_at};
use wg_machine::Halt;
use wg_semantics::{Flow, callees_are_functions};
use wg_typed::{TypeTree, TypedFunction};
use wg_values::{Setting, first_variables, zero_words};
use wg_words::{WordLists, Words};

/// The words of a function's result; `void` has none.
fn result_size(setting: &Setting<'_>, of: Option<TypeTree>) -> Result<u64, AllocError>
    ensures { IfOk result (λ n. n ≡ result_words setting.now.structs.now of) }
{
    match of {
        None => Ok(0),
        Some(t) => setting.structs.words(t),
    }
}

/// What a function returns; one that ends without a `return` gives zeros.
fn result_at(setting: &Setting<'_>, of: Option<TypeTree>, end: Flow) -> Result<Words, AllocError>
    ensures { IfOk result (λ words. words ≡ result_of (result_words setting.now.structs.now of) end) }
{
    match end {
        Flow::Returned { words } => Ok(words),
        Flow::Next | Flow::Broke | Flow::Continued => {
            let count = result_size(setting, of)?;
            zero_words(setting.alloc, count)
        }
    }
}

/// Runs a function on its parameters' values, with variables of its own.
fn function<C: Calls>(
    setting: &Setting<'_>,
    calls: &C,
    f: &TypedFunction,
    values: WordLists,
    run: &mut Run,
) -> Result<(Words, WordLists), Halt>
    ensures says { Runs (on_world (within (C.reach calls.now) setting.now function_does f.now values)) run.old result run.new }
    ensures turns { run.new.turns ≤ run.old.turns }
{
    let variables = first_variables(
        setting.alloc,
        setting.structs,
        f.variables.as_slice(),
        values,
    )?;
    let callers = mem::replace(&mut run.state.variables, variables);
    let end = block(setting, calls, f.body.as_slice(), run)?;
    let variables = mem::replace(&mut run.state.variables, callers);
    let words = result_at(setting, f.result, end)?;
    Ok((words, variables))
}

/// Whether the function of a number is one of those that calls reach, or the next one.
fn reaches_next<C: Calls>(calls: &C, number: u32) -> bool
    ensures { IsTrue result ↔ (number < suc (C.reach calls.now)) }
{
    number == 0 || calls.reaches(number - 1)
}

/// Runs a function by its number; it may call only those before it.
pub fn numbered<C: Calls>(
    setting: &Setting<'_>,
    calls: &C,
    number: u32,
    values: WordLists,
    run: &mut Run,
) -> Result<(Words, WordLists), Halt>
    ensures says { Runs (on_world ((callee_at (callees_in (suc (C.reach calls.now)) setting.now) number).does values)) run.old result run.new }
    ensures turns { run.new.turns ≤ run.old.turns }
{
    callees_are_functions();
    let f = match function_at(setting, number, reaches_next(calls, number)) {
        Some(f) => f,
        None => return Ok((Words::new(setting.alloc), WordLists::new(setting.alloc))),
    };
    let inner = Setting {
        earlier: &setting.earlier[..number as usize],
        ..*setting
    };
    function(&inner, calls, f, values, run)
}
