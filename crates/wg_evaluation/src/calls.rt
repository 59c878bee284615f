ghost use Rattle.std.specs.Prelude.{◌≡◌, ◌≤◌, ◌<◌, ◌↔◌, ℕ, IfOk, IsTrue, OnSome, length, map, slice_get, take};
ghost use Rattle.std.specs.Option.{option_copied};
ghost use Rattle.wg_semantics.specs.declared.state.Passed.{Passed as Given};
ghost use Rattle.wg_state.specs.Turns.{Done};
ghost use Rattle.wg_semantics.specs.Calls.{callee_at, on_world, all_back};
ghost use Rattle.wg_evaluation.specs.Says.{Runs, callees_in, back_in};

use std::alloc::{AllocError, Global};
use wg_machine::Halt;
use wg_semantics::{Passed, State};
use wg_typed::TypedFunction;
use wg_values::{Setting, write};
use wg_words::{Items, WordLists, Words};

/// A lane that runs, with the turns that it may still make.
#[derive(Drop)]
pub struct Run {
    pub state: State,
    pub turns: u64,
}

/// What runs the functions that a function calls.
///
/// A function calls only those before it, so it is enough to reach as many as there are.
pub trait Calls {
    ghost reach: { Self → ℕ };

    /// Whether it runs the function of a number.
    fn reaches(&self, function: u32) -> bool
        ensures { IsTrue result ↔ (function < reach self.now) };

    /// Runs a function by its number on its parameters' values: its result, and its variables as it leaves them, of which
    /// the first are its parameters.
    fn call(
        &self,
        setting: &Setting<'_>,
        function: u32,
        values: WordLists,
        run: &mut Run,
    ) -> Result<(Words, WordLists), Halt>
        ensures says { Runs (on_world ((callee_at (callees_in (reach self.now) setting.now) function).does values)) run.old result run.new }
        ensures turns { run.new.turns ≤ run.old.turns };
}

/// The function of a number, where calls reach it.
pub fn function_at<'a>(
    setting: &Setting<'a>,
    number: u32,
    is_reached: bool,
) -> Option<&'a TypedFunction>
    ensures value { (reach : ℕ) → (IsTrue is_reached ↔ (number < reach)) → option_copied result ≡ slice_get (take reach setting.now.earlier.now) number }
    ensures within { OnSome result (number < length setting.now.earlier.now) }
{
    if is_reached {
        setting.earlier.get(number as usize)
    } else {
        None
    }
}

/// The values of what is passed.
pub fn passed_words(alloc: Global, passed: &Items<Passed>) -> Result<WordLists, AllocError>
    ensures { IfOk result (λ list. list ≡ map (λ (p : Given). p.words) passed.now) }
{
    let mut list = WordLists::new(alloc);
    for p in passed.as_slice() {
        list.push(Words::from_slice(alloc, p.words.as_slice())?)?;
    }
    Ok(list)
}

fn copy_back(alloc: Global, p: &Passed, words: &Words, state: &mut State)
    ensures { state.new ≡ back_in p.now.back words.now state.old }
{
    match &p.back {
        Some(at) => write(alloc, at, words.as_slice(), state),
        None => (),
    }
}

/// Copies the parameters back that are `out` or `inout`, in their order.
pub fn copy_all_back(alloc: Global, passed: &Items<Passed>, values: &WordLists, state: &mut State)
    ensures { (t : ℕ) → all_back passed.now values.now state.old t ≡ Done tt state.new t }
{
    let passed = passed.as_slice();
    let values = values.as_slice();
    let count = passed.len().min(values.len());
    for at in 0..count {
        copy_back(alloc, &passed[at], &values[at], state);
    }
}
