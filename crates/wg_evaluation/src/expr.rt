ghost use Rattle.std.specs.Prelude.{◌≡◌, ◌≤◌, [], ◌∷◌, IfOk, length, map, option_map};
ghost use Rattle.wg_semantics.specs.declared.state.Spot.TheVariants as spot;
ghost use Rattle.wg_state.specs.Turns.{Done, each};
ghost use Rattle.wg_typed.specs.declared.typed_expr.Access.TheOpen.{TypedKind-F};
ghost use Rattle.wg_typed.specs.Directions.{direction_of};
ghost use Rattle.wg_typed.specs.Layout.{words_of};
ghost use Rattle.wg_semantics.specs.Places.{array_size};
ghost use Rattle.wg_state.specs.WordLists.{zeros};
ghost use Rattle.wg_semantics.specs.Calls.{value_of, all_passed, passed, called, callee_at};
ghost use Rattle.wg_semantics.specs.ExprMeaning.{seen, kind_step, kind_does, follows, links, word_of, index_of, followed, chained, operated, components_of};
ghost use Rattle.wg_values.specs.Pieces.{setting_of};
ghost use Rattle.wg_evaluation.specs.Says.{Runs, within, callees_in, spot_result};

use crate::calls::{Calls, Run, copy_all_back, function_at, passed_words};
use sqlite_items::{Boxed, Items};
use std::alloc::AllocError;
use wg_machine::Halt;
use wg_semantics::{Passed, Spot, State, Store, callees_are_functions};
use wg_tree::{BinaryOperator, Directed, Direction, PrefixOperator};
use wg_typed::{Access, Intrinsic, TypeTree, TypedExpr, TypedKind, TypedLink, TypedParameter};
use wg_values::{
    Setting, buffer_place, combine_all, components, convert, element, fetch, field_piece,
    handle_place, input_place, intrinsic, parameter_size, part, prefix_all, put_all, raw_words,
    target, truth_word, word_at, zero_value, zero_words,
};
use wg_words::{Word, WordLists, Words};

/// What an expression gives: words, or where they stand.
#[cycle(expr)]
pub fn spot<C: Calls>(
    setting: &Setting<'_>,
    calls: &C,
    e: &TypedExpr,
    run: &mut Run,
) -> Result<Spot, Halt>
    ensures says { Runs ((within (C.reach calls.now) setting.now seen e.now).spot) run.old result run.new }
    ensures turns { run.new.turns ≤ run.old.turns }
{
    kind(setting, calls, &e.kind, e.of, run)
}

/// The words of an expression's value.
#[cycle(expr)]
pub fn value<C: Calls>(
    setting: &Setting<'_>,
    calls: &C,
    e: &TypedExpr,
    run: &mut Run,
) -> Result<Words, Halt>
    ensures says { Runs (value_of setting.now.structs.now (within (C.reach calls.now) setting.now seen e.now)) run.old result run.new }
    ensures turns { run.new.turns ≤ run.old.turns }
{
    let at = spot(setting, calls, e, run)?;
    let words = fetch(setting, e.of, &at, &run.state)?;
    Ok(words)
}

/// The one word of a scalar's value.
#[cycle(expr)]
pub fn word<C: Calls>(
    setting: &Setting<'_>,
    calls: &C,
    e: &TypedExpr,
    run: &mut Run,
) -> Result<Word, Halt>
    ensures says { Runs (word_of (setting_of setting.now) (within (C.reach calls.now) setting.now seen e.now)) run.old result run.new }
    ensures turns { run.new.turns ≤ run.old.turns }
{
    let words = value(setting, calls, e, run)?;
    Ok(word_at(words.as_slice(), 0))
}

#[cycle(expr)]
fn index<C: Calls>(
    setting: &Setting<'_>,
    calls: &C,
    at: &Option<Boxed<TypedExpr>>,
    run: &mut Run,
) -> Result<Word, Halt>
    ensures says { Runs (index_of (setting_of setting.now) (option_map (within (C.reach calls.now) setting.now seen) at.now)) run.old result run.new }
    ensures turns { run.new.turns ≤ run.old.turns }
{
    match at {
        Some(e) => word(setting, calls, e.get(), run),
        None => Ok(0),
    }
}

/// The values of expressions, from left to right.
#[cycle(expr)]
fn values<C: Calls>(
    setting: &Setting<'_>,
    calls: &C,
    es: &Items<TypedExpr>,
    run: &mut Run,
) -> Result<WordLists, Halt>
    ensures says { Runs (each (map (value_of setting.now.structs.now) (map (within (C.reach calls.now) setting.now seen) es.now))) run.old result run.new }
    ensures turns { run.new.turns ≤ run.old.turns }
{
    let mut list = WordLists::new(setting.alloc);
    for e in es.as_slice() {
        let words = value(setting, calls, e, run)?;
        list.push(words)?;
    }
    Ok(list)
}

/// The forms after a value, from left to right.
#[cycle(expr)]
fn follow<C: Calls>(
    setting: &Setting<'_>,
    calls: &C,
    forms: &Items<Access>,
    of: TypeTree,
    base: Spot,
    run: &mut Run,
) -> Result<Spot, Halt>
    ensures says { Runs (followed (map (within (C.reach calls.now) setting.now follows) forms.now) of base) run.old result run.new }
    ensures turns { run.new.turns ≤ run.old.turns }
{
    let mut at = base;
    let mut t = of;
    for form in forms.as_slice() {
        at = access(setting, calls, form, t, at, run)?;
        t = type_after(setting, calls, form);
    }
    Ok(at)
}

#[cycle(expr)]
fn access<C: Calls>(
    setting: &Setting<'_>,
    calls: &C,
    form: &Access,
    t: TypeTree,
    at: Spot,
    run: &mut Run,
) -> Result<Spot, Halt>
    ensures says { Runs ((within (C.reach calls.now) setting.now follows form.now).after t at) run.old result run.new }
    ensures turns { run.new.turns ≤ run.old.turns }
{
    match form {
        Access::Field { field, .. } => {
            let piece = field_piece(setting.structs, t, *field)?;
            Ok(part(setting.alloc, piece, at)?)
        }
        Access::Components {
            components: numbers,
            ..
        } => Ok(read_components(setting, numbers, t, at, run)?),
        Access::Index { index, of } => {
            let i = word(setting, calls, index, run)?;
            let words = setting.structs.words(*of)?;
            Ok(element(setting.alloc, array_length(t), words, i, at)?)
        }
    }
}

/// The operators of a chain, from left to right.
#[cycle(expr)]
fn chain<C: Calls>(
    setting: &Setting<'_>,
    calls: &C,
    rest: &Items<TypedLink>,
    of: TypeTree,
    first: Words,
    run: &mut Run,
) -> Result<Words, Halt>
    ensures says { Runs (chained (map (within (C.reach calls.now) setting.now links) rest.now) of first) run.old result run.new }
    ensures turns { run.new.turns ≤ run.old.turns }
{
    let mut words = first;
    let mut t = of;
    for link in rest.as_slice() {
        words = link_after(setting, calls, link, t, words, run)?;
        t = link.of;
    }
    Ok(words)
}

#[cycle(expr)]
fn link_after<C: Calls>(
    setting: &Setting<'_>,
    calls: &C,
    link: &TypedLink,
    t: TypeTree,
    words: Words,
    run: &mut Run,
) -> Result<Words, Halt>
    ensures says { Runs ((within (C.reach calls.now) setting.now links link.now).next t words) run.old result run.new }
    ensures turns { run.new.turns ≤ run.old.turns }
{
    match link.before {
        None => operate(setting, calls, link.operator, t, &link.operand, words, run),
        Some(by) => {
            let words = convert(setting.alloc, t, by, words.as_slice())?;
            operate(setting, calls, link.operator, by, &link.operand, words, run)
        }
    }
}

/// An operator on a value and an expression; `&&` and `||` evaluate only what they need.
#[cycle(expr)]
fn operate<C: Calls>(
    setting: &Setting<'_>,
    calls: &C,
    operator: BinaryOperator,
    t: TypeTree,
    e: &TypedExpr,
    words: Words,
    run: &mut Run,
) -> Result<Words, Halt>
    ensures says { Runs (operated (setting_of setting.now) operator t (within (C.reach calls.now) setting.now seen e.now) words) run.old result run.new }
    ensures turns { run.new.turns ≤ run.old.turns }
{
    match operator {
        BinaryOperator::And => {
            if word_at(words.as_slice(), 0) != 0 {
                value(setting, calls, e, run)
            } else {
                Ok(Words::from_slice(setting.alloc, &[0])?)
            }
        }
        BinaryOperator::Or => {
            if word_at(words.as_slice(), 0) != 0 {
                Ok(Words::from_slice(setting.alloc, &[1])?)
            } else {
                value(setting, calls, e, run)
            }
        }
        BinaryOperator::Multiply
        | BinaryOperator::Divide
        | BinaryOperator::Remainder
        | BinaryOperator::Add
        | BinaryOperator::Subtract
        | BinaryOperator::ShiftLeft
        | BinaryOperator::ShiftRight
        | BinaryOperator::Less
        | BinaryOperator::Greater
        | BinaryOperator::AtMost
        | BinaryOperator::AtLeast
        | BinaryOperator::Equal
        | BinaryOperator::NotEqual
        | BinaryOperator::BitAnd
        | BinaryOperator::BitXor
        | BinaryOperator::BitOr => {
            let right = value(setting, calls, e, run)?;
            Ok(combine_all(
                setting.alloc,
                operator,
                t,
                words.as_slice(),
                right.as_slice(),
            )?)
        }
    }
}

/// Components of a vector, by number.
fn read_components(
    setting: &Setting<'_>,
    numbers: &Words,
    t: TypeTree,
    at: Spot,
    run: &Run,
) -> Result<Spot, AllocError>
    ensures { IfOk result (λ p. components_of (setting_of setting.now) numbers.now t at run.now.state run.now.turns ≡ Done p run.now.state run.now.turns) }
{
    let at = components(setting, numbers, t, at, &run.state)?;
    Ok(at)
}

/// The type of what a form gives, which is the same whatever is called.
fn type_after<C: Calls>(setting: &Setting<'_>, _calls: &C, form: &Access) -> TypeTree
    ensures { result ≡ (within (C.reach _calls.now) setting.now follows form.now).of }
{
    match form {
        Access::Field { of, .. } | Access::Components { of, .. } | Access::Index { of, .. } => *of,
    }
}

fn array_length(t: TypeTree) -> u32
    ensures { result ≡ array_size t }
{
    match t {
        TypeTree::Array { size, .. } => size,
        TypeTree::Scalar { .. } | TypeTree::Vector { .. } | TypeTree::Struct { .. } => 0,
    }
}

/// One argument by its parameter's direction.
#[cycle(expr)]
fn pass<C: Calls>(
    setting: &Setting<'_>,
    calls: &C,
    parameter: &TypedParameter,
    e: &TypedExpr,
    run: &mut Run,
) -> Result<Passed, Halt>
    ensures says { Runs (passed setting.now.structs.now parameter.now (within (C.reach calls.now) setting.now seen e.now)) run.old result run.new }
    ensures turns { run.new.turns ≤ run.old.turns }
{
    match direction(parameter.direction) {
        Direction::In => {
            let words = value(setting, calls, e, run)?;
            Ok(Passed { words, back: None })
        }
        Direction::Out => {
            let at = spot(setting, calls, e, run)?;
            let count = parameter_size(setting.structs, parameter.of)?;
            let words = zero_words(setting.alloc, count)?;
            Ok(Passed {
                words,
                back: Some(at),
            })
        }
        Direction::InOut => {
            let at = spot(setting, calls, e, run)?;
            let words = fetch(setting, e.of, &at, &run.state)?;
            Ok(Passed {
                words,
                back: Some(at),
            })
        }
    }
}

fn direction(written: Option<Directed>) -> Direction
    ensures { result ≡ direction_of written }
{
    match written {
        Some(directed) => directed.direction,
        None => Direction::In,
    }
}

/// The arguments from left to right, each by its parameter.
#[cycle(expr)]
#[tactic(auto, using(crate::proofs::Calling::none_left))]
fn pass_all<C: Calls>(
    setting: &Setting<'_>,
    calls: &C,
    parameters: &Items<TypedParameter>,
    arguments: &Items<TypedExpr>,
    run: &mut Run,
) -> Result<wg_words::Items<Passed>, Halt>
    ensures says { Runs (all_passed setting.now.structs.now parameters.now (map (within (C.reach calls.now) setting.now seen) arguments.now)) run.old result run.new }
    ensures turns { run.new.turns ≤ run.old.turns }
{
    let mut list = wg_words::Items::new(setting.alloc);
    let parameters = parameters.as_slice();
    let mut at = 0;
    for e in arguments.as_slice() {
        if at >= parameters.len() {
            return Ok(list);
        }
        let first = pass(setting, calls, &parameters[at], e, run)?;
        list.push(first)?;
        at += 1;
    }
    Ok(list)
}

/// A call: its arguments, the function, and the copies back.
#[cycle(expr)]
pub fn call<C: Calls>(
    setting: &Setting<'_>,
    calls: &C,
    function: u32,
    arguments: &Items<TypedExpr>,
    run: &mut Run,
) -> Result<Words, Halt>
    ensures says { Runs (called setting.now.structs.now (callee_at (callees_in (C.reach calls.now) setting.now) function) (map (within (C.reach calls.now) setting.now seen) arguments.now)) run.old result run.new }
    ensures turns { run.new.turns ≤ run.old.turns }
{
    callees_are_functions();
    let callee = match function_at(setting, function, calls.reaches(function)) {
        Some(callee) => callee,
        None => return Ok(Words::new(setting.alloc)),
    };
    let given = pass_all(setting, calls, &callee.parameters, arguments, run)?;
    let values = passed_words(setting.alloc, &given)?;
    let back = calls.call(setting, function, values, run)?;
    copy_all_back(setting.alloc, &given, &back.1, &mut run.state);
    Ok(back.0)
}

/// An element of a structured buffer.
#[cycle(expr)]
fn buffer_element<C: Calls>(
    setting: &Setting<'_>,
    calls: &C,
    buffer: u32,
    index: &Boxed<TypedExpr>,
    t: TypeTree,
    run: &mut Run,
) -> Result<Spot, Halt>
    ensures says { Runs (within (C.reach calls.now) setting.now kind_step (TypedKind-F.Element buffer (within (C.reach calls.now) setting.now seen index.now)) t) run.old result run.new }
    ensures turns { run.new.turns ≤ run.old.turns }
{
    let at = word(setting, calls, index.get(), run)?;
    let words = setting.structs.words(t)?;
    Ok(buffer_place(buffer, words, at, &run.state)?)
}

/// Words of a raw buffer, from an address in bytes on.
#[cycle(expr)]
fn load<C: Calls>(
    setting: &Setting<'_>,
    calls: &C,
    buffer: u32,
    address: &Boxed<TypedExpr>,
    t: TypeTree,
    run: &mut Run,
) -> Result<Spot, Halt>
    ensures says { Runs (within (C.reach calls.now) setting.now kind_step (TypedKind-F.Load buffer (within (C.reach calls.now) setting.now seen address.now)) t) run.old result run.new }
    ensures turns { run.new.turns ≤ run.old.turns }
{
    let at = word(setting, calls, address.get(), run)?;
    let words = raw_words(setting, t, buffer, at, &run.state)?;
    Ok(Spot::Value { words })
}

/// A record of the input.
#[cycle(expr)]
fn input<C: Calls>(
    setting: &Setting<'_>,
    calls: &C,
    at: &Option<Boxed<TypedExpr>>,
    t: TypeTree,
    run: &mut Run,
) -> Result<Spot, Halt>
    ensures says { Runs (within (C.reach calls.now) setting.now kind_step (TypedKind-F.Input (option_map (within (C.reach calls.now) setting.now seen) at.now)) t) run.old result run.new }
    ensures turns { run.new.turns ≤ run.old.turns }
{
    let at = index(setting, calls, at, run)?;
    Ok(input_place(at, &run.state))
}

/// A record of a handle.
#[cycle(expr)]
fn handle_record<C: Calls>(
    setting: &Setting<'_>,
    calls: &C,
    handle: u32,
    at: &Option<Boxed<TypedExpr>>,
    t: TypeTree,
    run: &mut Run,
) -> Result<Spot, Halt>
    ensures says { Runs (within (C.reach calls.now) setting.now kind_step (TypedKind-F.Handle handle (option_map (within (C.reach calls.now) setting.now seen) at.now)) t) run.old result run.new }
    ensures turns { run.new.turns ≤ run.old.turns }
{
    let at = index(setting, calls, at, run)?;
    Ok(handle_place(setting, handle, at, &run.state))
}

/// Whether an element of an output has a unit to which it sends.
#[cycle(expr)]
fn is_valid<C: Calls>(
    setting: &Setting<'_>,
    calls: &C,
    output: u32,
    element: &Option<Boxed<TypedExpr>>,
    t: TypeTree,
    run: &mut Run,
) -> Result<Spot, Halt>
    ensures says { Runs (within (C.reach calls.now) setting.now kind_step (TypedKind-F.IsValid output (option_map (within (C.reach calls.now) setting.now seen) element.now)) t) run.old result run.new }
    ensures turns { run.new.turns ≤ run.old.turns }
{
    let at = index(setting, calls, element, run)?;
    let valid = target(setting.outputs, output, at).is_some();
    Ok(one_word(setting, truth_word(valid))?)
}

/// An operator before an expression.
#[cycle(expr)]
fn prefix<C: Calls>(
    setting: &Setting<'_>,
    calls: &C,
    operator: PrefixOperator,
    operand: &Boxed<TypedExpr>,
    t: TypeTree,
    run: &mut Run,
) -> Result<Spot, Halt>
    ensures says { Runs (within (C.reach calls.now) setting.now kind_step (TypedKind-F.Prefix operator (within (C.reach calls.now) setting.now seen operand.now)) t) run.old result run.new }
    ensures turns { run.new.turns ≤ run.old.turns }
{
    let words = value(setting, calls, operand.get(), run)?;
    let words = prefix_all(setting.alloc, operator, t, words.as_slice())?;
    Ok(Spot::Value { words })
}

/// A value as one of another type.
#[cycle(expr)]
fn converted<C: Calls>(
    setting: &Setting<'_>,
    calls: &C,
    operand: &Boxed<TypedExpr>,
    t: TypeTree,
    run: &mut Run,
) -> Result<Spot, Halt>
    ensures says { Runs (within (C.reach calls.now) setting.now kind_step (TypedKind-F.Convert (within (C.reach calls.now) setting.now seen operand.now)) t) run.old result run.new }
    ensures turns { run.new.turns ≤ run.old.turns }
{
    let words = value(setting, calls, operand.get(), run)?;
    let words = convert(setting.alloc, operand.get().of, t, words.as_slice())?;
    Ok(Spot::Value { words })
}

/// A value from the values of its parts.
#[cycle(expr)]
fn construct<C: Calls>(
    setting: &Setting<'_>,
    calls: &C,
    parts: &Items<TypedExpr>,
    t: TypeTree,
    run: &mut Run,
) -> Result<Spot, Halt>
    ensures says { Runs (within (C.reach calls.now) setting.now kind_step (TypedKind-F.Construct (map (within (C.reach calls.now) setting.now seen) parts.now)) t) run.old result run.new }
    ensures turns { run.new.turns ≤ run.old.turns }
{
    let given = values(setting, calls, parts, run)?;
    let words = put_all(setting.alloc, &given)?;
    Ok(Spot::Value { words })
}

/// A call of the language on numbers.
#[cycle(expr)]
fn numeric_call<C: Calls>(
    setting: &Setting<'_>,
    calls: &C,
    name: Intrinsic,
    arguments: &Items<TypedExpr>,
    t: TypeTree,
    run: &mut Run,
) -> Result<Spot, Halt>
    ensures says { Runs (within (C.reach calls.now) setting.now kind_step (TypedKind-F.Intrinsic name (map (within (C.reach calls.now) setting.now seen) arguments.now)) t) run.old result run.new }
    ensures turns { run.new.turns ≤ run.old.turns }
{
    let given = values(setting, calls, arguments, run)?;
    let words = intrinsic(setting.alloc, name, t, &given)?;
    Ok(Spot::Value { words })
}

/// What an expression of a kind gives, by its type.
#[cycle(expr)]
fn kind<C: Calls>(
    setting: &Setting<'_>,
    calls: &C,
    kind: &TypedKind,
    t: TypeTree,
    run: &mut Run,
) -> Result<Spot, Halt>
    ensures says { Runs (within (C.reach calls.now) setting.now kind_does kind.now t) run.old result run.new }
    ensures turns { run.new.turns ≤ run.old.turns }
{
    match kind {
        TypedKind::Literal { words } => Ok(literal(setting, words)?),
        TypedKind::Variable { variable } => Ok(whole(Store::Variable {
            variable: *variable,
        })),
        TypedKind::Shared { variable } => Ok(whole(Store::Shared {
            variable: *variable,
        })),
        TypedKind::Element { buffer, index } => buffer_element(
            setting, calls, *buffer, index, t, run,
        ),
        TypedKind::Load { buffer, address } => load(setting, calls, *buffer, address, t, run),
        TypedKind::Input { index: at } => input(setting, calls, at, t, run),
        TypedKind::Count => Ok(record_count(setting, &run.state)?),
        TypedKind::Finished => Ok(one_word(setting, truth_word(setting.last))?),
        TypedKind::Handle { handle, index: at } => handle_record(
            setting, calls, *handle, at, t, run,
        ),
        TypedKind::IsValid { output, element } => is_valid(
            setting, calls, *output, element, t, run,
        ),
        TypedKind::Levels => Ok(one_word(setting, setting.level)?),
        TypedKind::Zeros => Ok(zeros_of(setting, t)?),
        TypedKind::Access { base, forms } => {
            let at = spot(setting, calls, base.get(), run)?;
            follow(setting, calls, forms, base.get().of, at, run)
        }
        TypedKind::Prefix { operator, operand } => prefix(
            setting, calls, *operator, operand, t, run,
        ),
        TypedKind::Convert { operand } => converted(setting, calls, operand, t, run),
        TypedKind::Chain { first, rest } => {
            let words = value(setting, calls, first.get(), run)?;
            as_spot(chain(setting, calls, rest, first.get().of, words, run))
        }
        TypedKind::Choice { test, then, other } => {
            let c = word(setting, calls, test.get(), run)?;
            if c != 0 {
                as_spot(value(setting, calls, then.get(), run))
            } else {
                as_spot(value(setting, calls, other.get(), run))
            }
        }
        TypedKind::Construct { parts } => construct(setting, calls, parts, t, run),
        TypedKind::Call {
            function,
            arguments,
        } => as_spot(call(setting, calls, *function, arguments, run)),
        TypedKind::Intrinsic {
            call: name,
            arguments,
        } => numeric_call(setting, calls, *name, arguments, t, run),
    }
}

/// A copy of words.
fn literal(setting: &Setting<'_>, words: &Words) -> Result<Spot, AllocError>
    ensures { IfOk result (λ p. p ≡ spot.Value words.now) }
{
    let words = Words::from_slice(setting.alloc, words.as_slice())?;
    Ok(Spot::Value { words })
}

/// All words of a store.
fn whole(store: Store) -> Spot
    ensures { result ≡ spot.At store 0 }
{
    Spot::At { store, from: 0 }
}

fn zeros_of(setting: &Setting<'_>, t: TypeTree) -> Result<Spot, AllocError>
    ensures { IfOk result (λ p. p ≡ spot.Value (zeros (words_of setting.now.structs.now t))) }
{
    let words = zero_value(setting.alloc, setting.structs, t)?;
    Ok(Spot::Value { words })
}

fn one_word(setting: &Setting<'_>, word: Word) -> Result<Spot, AllocError>
    ensures { IfOk result (λ p. p ≡ spot.Value (word ∷ [])) }
{
    let words = Words::from_slice(setting.alloc, &[word])?;
    Ok(Spot::Value { words })
}

/// How many records a launch has.
fn record_count(setting: &Setting<'_>, state: &State) -> Result<Spot, AllocError>
    ensures { IfOk result (λ p. p ≡ spot.Value (length state.now.world.inputs ∷ [])) }
{
    match u32::try_from(state.world.inputs.len()) {
        Ok(count) => one_word(setting, count),
        Err(_) => Err(AllocError),
    }
}

fn as_spot(words: Result<Words, Halt>) -> Result<Spot, Halt>
    ensures { result ≡ spot_result words }
{
    let words = words?;
    Ok(Spot::Value { words })
}
