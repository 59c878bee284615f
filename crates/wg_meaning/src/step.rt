ghost use Rattle.std.specs.Prelude.{◌≡◌, ◌≤◌, ◌/◌, IfOk};
ghost use Rattle.wg_semantics.specs.declared.state.Store.TheVariants as store;
ghost use Rattle.wg_semantics.specs.declared.state.Spot.TheVariants as spot;
ghost use Rattle.wg_semantics.specs.ExprMeaning.{seen};
ghost use Rattle.wg_semantics.specs.StepMeaning.{assigned, updated, changed, raw_stored, atomic_of, destination_of, maybe_word, maybe_spot, word_at as word_there, interlocked, step_does, steps_do, start_value, declared_as, all_declared, started};
ghost use Rattle.wg_values.specs.Pieces.{setting_of};
ghost use Rattle.wg_evaluation.specs.Says.{Runs, within};
ghost use Rattle.wg_meaning.specs.Flows.{raw_destination_of};

use sqlite_items::Items;
use std::alloc::AllocError;
use wg_evaluation::{Calls, Run, call, spot, value, word};
use wg_machine::{Atomic, Halt};
use wg_semantics::{Spot, State, Store};
use wg_tree::{BinaryOperator, Scalar, StepOperator};
use wg_typed::{
    Destination, Interlocked, InterlockedForm, TypeTree, TypedDeclarator, TypedExpr, TypedStart,
    TypedStep,
};
use wg_values::{Setting, combine_all, convert, fetch, step_all, word_at, write, zero_value};
use wg_words::{Word, Words};

fn assign<C: Calls>(
    setting: &Setting<'_>,
    calls: &C,
    target: &TypedExpr,
    e: &TypedExpr,
    run: &mut Run,
) -> Result<(), Halt>
    ensures says { Runs (assigned (setting_of setting.now) (within (C.reach calls.now) setting.now seen target.now) (within (C.reach calls.now) setting.now seen e.now)) run.old result run.new }
    ensures turns { run.new.turns ≤ run.old.turns }
{
    let at = spot(setting, calls, target, run)?;
    let words = value(setting, calls, e, run)?;
    write(setting.alloc, &at, words.as_slice(), &mut run.state);
    Ok(())
}

/// `target op= e`: the left side is read after the right side is known.
fn update<C: Calls>(
    setting: &Setting<'_>,
    calls: &C,
    target: &TypedExpr,
    operator: BinaryOperator,
    by: TypeTree,
    e: &TypedExpr,
    run: &mut Run,
) -> Result<(), Halt>
    ensures says { Runs (updated (setting_of setting.now) (within (C.reach calls.now) setting.now seen target.now) operator by (within (C.reach calls.now) setting.now seen e.now)) run.old result run.new }
    ensures turns { run.new.turns ≤ run.old.turns }
{
    let at = spot(setting, calls, target, run)?;
    let right = value(setting, calls, e, run)?;
    let left = fetch(setting, target.of, &at, &run.state)?;
    let left = convert(setting.alloc, target.of, by, left.as_slice())?;
    let both = combine_all(
        setting.alloc,
        operator,
        by,
        left.as_slice(),
        right.as_slice(),
    )?;
    let words = convert(setting.alloc, by, target.of, both.as_slice())?;
    write(setting.alloc, &at, words.as_slice(), &mut run.state);
    Ok(())
}

/// `++` and `--`.
fn change<C: Calls>(
    setting: &Setting<'_>,
    calls: &C,
    target: &TypedExpr,
    operator: StepOperator,
    run: &mut Run,
) -> Result<(), Halt>
    ensures says { Runs (changed (setting_of setting.now) (within (C.reach calls.now) setting.now seen target.now) operator) run.old result run.new }
    ensures turns { run.new.turns ≤ run.old.turns }
{
    let at = spot(setting, calls, target, run)?;
    let words = fetch(setting, target.of, &at, &run.state)?;
    let words = step_all(setting.alloc, operator, target.of, words.as_slice())?;
    write(setting.alloc, &at, words.as_slice(), &mut run.state);
    Ok(())
}

/// A word of a raw buffer, by an address in bytes.
fn raw_place(buffer: u32, address: Word) -> Spot
    ensures { result ≡ spot.At (store.Buffer buffer) (address / 4) }
{
    Spot::At {
        store: Store::Buffer { buffer },
        from: u64::from(address / 4),
    }
}

fn raw_store<C: Calls>(
    setting: &Setting<'_>,
    calls: &C,
    buffer: u32,
    address: &TypedExpr,
    e: &TypedExpr,
    run: &mut Run,
) -> Result<(), Halt>
    ensures says { Runs (raw_stored (setting_of setting.now) buffer (within (C.reach calls.now) setting.now seen address.now) (within (C.reach calls.now) setting.now seen e.now)) run.old result run.new }
    ensures turns { run.new.turns ≤ run.old.turns }
{
    let at = word(setting, calls, address, run)?;
    let words = value(setting, calls, e, run)?;
    write(
        setting.alloc,
        &raw_place(buffer, at),
        words.as_slice(),
        &mut run.state,
    );
    Ok(())
}

/// What an interlocked form does to a word of the machine.
fn atomic(form: InterlockedForm, signed: bool) -> Atomic
    ensures { result ≡ atomic_of form signed }
{
    match form {
        InterlockedForm::Add => Atomic::Add,
        InterlockedForm::Min => {
            if signed {
                Atomic::MinSigned
            } else {
                Atomic::Min
            }
        }
        InterlockedForm::Max => {
            if signed {
                Atomic::MaxSigned
            } else {
                Atomic::Max
            }
        }
        InterlockedForm::And => Atomic::And,
        InterlockedForm::Or => Atomic::Or,
        InterlockedForm::Xor => Atomic::Xor,
        InterlockedForm::Exchange => Atomic::Exchange,
        InterlockedForm::CompareExchange | InterlockedForm::CompareStore => Atomic::CompareExchange,
    }
}

fn destination<C: Calls>(
    setting: &Setting<'_>,
    calls: &C,
    destination: &Destination,
    run: &mut Run,
) -> Result<Spot, Halt>
    ensures says { Runs (within (C.reach calls.now) setting.now destination_of destination.now) run.old result run.new }
    ensures turns { run.new.turns ≤ run.old.turns }
{
    match destination {
        Destination::Scalar { target } => spot(setting, calls, target, run),
        Destination::Raw { buffer, address } => raw_destination(
            setting, calls, *buffer, address, run,
        ),
    }
}

fn raw_destination<C: Calls>(
    setting: &Setting<'_>,
    calls: &C,
    buffer: u32,
    address: &TypedExpr,
    run: &mut Run,
) -> Result<Spot, Halt>
    ensures says { Runs (raw_destination_of (setting_of setting.now) buffer (within (C.reach calls.now) setting.now seen address.now)) run.old result run.new }
    ensures turns { run.new.turns ≤ run.old.turns }
{
    let at = word(setting, calls, address, run)?;
    Ok(raw_place(buffer, at))
}

/// The word of an expression, 0 where there is none.
pub fn optional_word<C: Calls>(
    setting: &Setting<'_>,
    calls: &C,
    e: &Option<TypedExpr>,
    run: &mut Run,
) -> Result<Word, Halt>
    ensures says { Runs (within (C.reach calls.now) setting.now maybe_word e.now) run.old result run.new }
    ensures turns { run.new.turns ≤ run.old.turns }
{
    match e {
        Some(e) => word(setting, calls, e, run),
        None => Ok(0),
    }
}

fn optional_spot<C: Calls>(
    setting: &Setting<'_>,
    calls: &C,
    e: &Option<TypedExpr>,
    run: &mut Run,
) -> Result<Spot, Halt>
    ensures says { Runs (within (C.reach calls.now) setting.now maybe_spot e.now) run.old result run.new }
    ensures turns { run.new.turns ≤ run.old.turns }
{
    match e {
        Some(e) => spot(setting, calls, e, run),
        None => Ok(Spot::Nowhere),
    }
}

/// One word where it stands; 0 outside.
#[tactic(auto, using(crate::proofs::Words::word_same))]
fn one_word(setting: &Setting<'_>, at: &Spot, state: &State) -> Result<Word, AllocError>
    ensures { IfOk result (λ w. w ≡ word_there at.now state.now) }
{
    let words = fetch(setting, TypeTree::Scalar { of: Scalar::Uint }, at, state)?;
    Ok(word_at(words.as_slice(), 0))
}

/// An interlocked form: its places and words from left to right, then the change, then the old word.
fn interlock<C: Calls>(
    setting: &Setting<'_>,
    calls: &C,
    i: &Interlocked,
    run: &mut Run,
) -> Result<(), Halt>
    ensures says { Runs (within (C.reach calls.now) setting.now interlocked i.now) run.old result run.new }
    ensures turns { run.new.turns ≤ run.old.turns }
{
    let at = destination(setting, calls, &i.destination, run)?;
    let compare = optional_word(setting, calls, &i.compare, run)?;
    let value = word(setting, calls, &i.value, run)?;
    let back = optional_spot(setting, calls, &i.old, run)?;
    let old = one_word(setting, &at, &run.state)?;
    let left = atomic(i.form, i.signed).exchanged(old, compare, value);
    write(setting.alloc, &at, &[left], &mut run.state);
    write(setting.alloc, &back, &[old], &mut run.state);
    Ok(())
}

/// A part of a statement or of a `for` header.
pub fn step<C: Calls>(
    setting: &Setting<'_>,
    calls: &C,
    step: &TypedStep,
    run: &mut Run,
) -> Result<(), Halt>
    ensures says { Runs (within (C.reach calls.now) setting.now step_does step.now) run.old result run.new }
    ensures turns { run.new.turns ≤ run.old.turns }
{
    match step {
        TypedStep::Evaluate { value: e } => {
            let _words = value(setting, calls, e, run)?;
            Ok(())
        }
        TypedStep::Call {
            function,
            arguments,
        } => {
            let _words = call(setting, calls, *function, arguments, run)?;
            Ok(())
        }
        TypedStep::Assign { target, value } => assign(setting, calls, target, value, run),
        TypedStep::Update {
            target,
            operator,
            by,
            value,
        } => update(setting, calls, target, *operator, *by, value, run),
        TypedStep::Change { target, operator } => change(setting, calls, target, *operator, run),
        TypedStep::Store {
            buffer,
            address,
            value,
        } => raw_store(setting, calls, *buffer, address, value, run),
        TypedStep::Interlocked { interlocked } => interlock(setting, calls, interlocked, run),
    }
}

/// Steps, from left to right.
pub fn steps<C: Calls>(
    setting: &Setting<'_>,
    calls: &C,
    list: &Items<TypedStep>,
    run: &mut Run,
) -> Result<(), Halt>
    ensures says { Runs (within (C.reach calls.now) setting.now steps_do list.now) run.old result run.new }
    ensures turns { run.new.turns ≤ run.old.turns }
{
    for s in list.as_slice() {
        step(setting, calls, s, run)?;
    }
    Ok(())
}

/// What a variable starts with: its start value, or zeros.
fn start_words<C: Calls>(
    setting: &Setting<'_>,
    calls: &C,
    t: TypeTree,
    e: &Option<TypedExpr>,
    run: &mut Run,
) -> Result<Words, Halt>
    ensures says { Runs (within (C.reach calls.now) setting.now start_value t e.now) run.old result run.new }
    ensures turns { run.new.turns ≤ run.old.turns }
{
    match e {
        Some(e) => value(setting, calls, e, run),
        None => Ok(zero_value(setting.alloc, setting.structs, t)?),
    }
}

fn declare<C: Calls>(
    setting: &Setting<'_>,
    calls: &C,
    d: &TypedDeclarator,
    run: &mut Run,
) -> Result<(), Halt>
    ensures says { Runs (within (C.reach calls.now) setting.now declared_as d.now) run.old result run.new }
    ensures turns { run.new.turns ≤ run.old.turns }
{
    let words = start_words(setting, calls, d.of, &d.value, run)?;
    let at = Spot::At {
        store: Store::Variable {
            variable: d.variable,
        },
        from: 0,
    };
    write(setting.alloc, &at, words.as_slice(), &mut run.state);
    Ok(())
}

/// A declaration: its names from left to right.
pub fn declare_all<C: Calls>(
    setting: &Setting<'_>,
    calls: &C,
    list: &Items<TypedDeclarator>,
    run: &mut Run,
) -> Result<(), Halt>
    ensures says { Runs (within (C.reach calls.now) setting.now all_declared list.now) run.old result run.new }
    ensures turns { run.new.turns ≤ run.old.turns }
{
    for d in list.as_slice() {
        declare(setting, calls, d, run)?;
    }
    Ok(())
}

/// What a `for` begins with.
pub fn start<C: Calls>(
    setting: &Setting<'_>,
    calls: &C,
    start: &Option<TypedStart>,
    run: &mut Run,
) -> Result<(), Halt>
    ensures says { Runs (within (C.reach calls.now) setting.now started start.now) run.old result run.new }
    ensures turns { run.new.turns ≤ run.old.turns }
{
    match start {
        None => Ok(()),
        Some(TypedStart::Declare { declared }) => declare_all(setting, calls, declared, run),
        Some(TypedStart::Steps { steps: list }) => steps(setting, calls, list, run),
    }
}
