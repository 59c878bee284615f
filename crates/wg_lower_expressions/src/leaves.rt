ghost use Rattle.std.specs.Prelude.{◌≡◌, ◌≤◌, ◌+◌, ◌-◌, [], ◌∷◌, ◌++◌, IfOk, OnOk, length};
ghost use Rattle.wg_code.specs.declared.op.Op.TheVariants as o;
ghost use Rattle.wg_lowered.specs.declared.places.Where.TheVariants as place;
ghost use Rattle.wg_lowered.specs.declared.places.Space.TheVariants as space;
ghost use Rattle.wg_lowered.specs.Exprs.{components_code, converted_code, element_code, form_of, pair_ops};
ghost use Rattle.wg_lowered.specs.Where.{base_of, copies, part_of, run as run_of, sets, size};
ghost use Rattle.wg_semantics.specs.Places.{array_size};
ghost use Rattle.wg_state.specs.WordLists.{zeros as zeros_of};
ghost use Rattle.wg_typed.specs.Layout.{field_range};
ghost use Rattle.wg_typed.specs.Operators.{scalar_of};

use crate::names::Names;
use sqlite_items::Items;
use std::alloc::{AllocError, Global};
use wg_code::{Op, Ops};
use wg_emit::{
    Elements, WordCode, components, convert, element, emit_each, emit_pairs, form, forward, part,
    run,
};
use wg_lowered::{Space, Where};
use wg_tree::{BinaryOperator, Scalar};
use wg_typed::TypeTree;
use wg_values::{field_piece, zero_words};
use wg_words::Words;

/// Where an expression's code leaves its words, and the first register that is free after it.
#[derive(Debug, Drop)]
pub struct Spot {
    pub place: Where,
    pub next: u32,
}

/// The registers in which an expression's code leaves its words, and the first one that is free after it.
#[derive(Debug, Drop)]
pub struct Value {
    pub at: Words,
    pub next: u32,
}

/// The code of an expression in a block of its own.
#[derive(Drop)]
pub struct Branch {
    pub ops: Ops,
    pub at: Words,
    pub next: u32,
}

/// A number, by its words.
pub fn literal(words: &Words, d: u32, ops: &mut Ops) -> Result<Spot, AllocError>
    ensures place { IfOk result (λ x. x.place ≡ place.Fixed d) }
    ensures next { IfOk result (λ x. x.next ≡ d + length words.now) }
    ensures code { OnOk result (ops.new ≡ ops.old ++ sets words.now d) }
{
    emit_each(ops, WordCode::Set, words, d)?;
    let next = forward(d, words.len() as u64)?;
    Ok(Spot {
        place: Where::Fixed { at: d },
        next,
    })
}

/// A value of zeros.
pub fn zeros(names: &Names<'_>, t: TypeTree, d: u32, ops: &mut Ops) -> Result<Spot, AllocError>
    ensures place { IfOk result (λ x. x.place ≡ place.Fixed d) }
    ensures next { IfOk result (λ x. x.next ≡ d + size names.now t) }
    ensures code { OnOk result (ops.new ≡ ops.old ++ sets (zeros_of (size names.now t)) d) }
{
    let count = names.size(t)?;
    let words = zero_words(names.alloc, u64::from(count))?;
    emit_each(ops, WordCode::Set, &words, d)?;
    let next = forward(d, u64::from(count))?;
    Ok(Spot {
        place: Where::Fixed { at: d },
        next,
    })
}

/// A groupshared variable.
pub fn shared(
    names: &Names<'_>,
    variable: u32,
    t: TypeTree,
    d: u32,
    ops: &mut Ops,
) -> Result<Spot, AllocError>
    ensures place { IfOk result (λ x. x.place ≡ place.Ranged space.Group (base_of names.now.shared variable) (base_of names.now.shared variable + size names.now t) d) }
    ensures next { IfOk result (λ x. x.next ≡ d + 1) }
    ensures code { OnOk result (ops.new ≡ ops.old ++ o.Set d 0 ∷ []) }
{
    let count = names.size(t)?;
    let from = names.shared.begin(variable);
    let to = forward(from, u64::from(count))?;
    let next = forward(d, 1)?;
    ops.push(Op::Set { d, value: 0 })?;
    Ok(Spot {
        place: Where::Ranged {
            space: Space::Group,
            from,
            to,
            index: d,
        },
        next,
    })
}

/// One operation that leaves one word.
pub fn one_word(op: Op, d: u32, ops: &mut Ops) -> Result<Spot, AllocError>
    ensures place { IfOk result (λ x. x.place ≡ place.Fixed d) }
    ensures next { IfOk result (λ x. x.next ≡ d + 1) }
    ensures code { OnOk result (ops.new ≡ ops.old ++ op ∷ []) }
{
    ops.push(op)?;
    let next = forward(d, 1)?;
    Ok(Spot {
        place: Where::Fixed { at: d },
        next,
    })
}

/// An index that is not written is 0.
pub fn zero_index(alloc: Global, d: u32, ops: &mut Ops) -> Result<Value, AllocError>
    ensures at { IfOk result (λ x. x.at ≡ d ∷ []) }
    ensures next { IfOk result (λ x. x.next ≡ d + 1) }
    ensures code { OnOk result (ops.new ≡ ops.old ++ o.Set d 0 ∷ []) }
{
    ops.push(Op::Set { d, value: 0 })?;
    let at = run(alloc, d, 1)?;
    let next = forward(d, 1)?;
    Ok(Value { at, next })
}

/// A field of a struct.
pub fn field(names: &Names<'_>, t: TypeTree, number: u32, base: Spot) -> Result<Spot, AllocError>
    ensures place { IfOk result (λ x. x.place ≡ part_of (field_range names.now.structs t number) base.place) }
    ensures next { IfOk result (λ x. x.next ≡ base.next) }
{
    let Spot { place, next } = base;
    let piece = field_piece(names.structs, t, number)?;
    let place = part(names.alloc, piece.from, piece.to, place)?;
    Ok(Spot { place, next })
}

/// Components of a vector, by number.
pub fn swizzle(
    alloc: Global,
    numbers: &Words,
    base: Spot,
    ops: &mut Ops,
) -> Result<Spot, AllocError>
    ensures place { IfOk result (λ x. x.place ≡ (components_code numbers.now base.place base.next).at) }
    ensures next { IfOk result (λ x. x.next ≡ base.next + length numbers.now) }
    ensures code { OnOk result (ops.new ≡ ops.old ++ (components_code numbers.now base.place base.next).ops) }
{
    let Spot { place, next: d } = base;
    let place = components(alloc, ops, place, numbers, d)?;
    let next = forward(d, numbers.len() as u64)?;
    Ok(Spot { place, next })
}

fn array_length(t: TypeTree) -> u32
    ensures { result ≡ array_size t }
{
    match t {
        TypeTree::Array { size, .. } => size,
        TypeTree::Scalar { .. } | TypeTree::Vector { .. } | TypeTree::Struct { .. } => 0,
    }
}

/// The element of type `of` of an array of type `t`, whose index stands in register `q`.
pub fn element_at(
    names: &Names<'_>,
    of: TypeTree,
    t: TypeTree,
    q: u32,
    base: Spot,
    ops: &mut Ops,
) -> Result<Spot, AllocError>
    ensures place { IfOk result (λ x. x.place ≡ (element_code (array_size t) (size names.now of) base.place q base.next).at) }
    ensures next { IfOk result (λ x. x.next ≡ base.next + (1 + size names.now t)) }
    ensures code { OnOk result (ops.new ≡ ops.old ++ (element_code (array_size t) (size names.now of) base.place q base.next).ops) }
{
    let Spot { place, next: d } = base;
    let words = names.size(of)?;
    let all = names.size(t)?;
    let count = array_length(t);
    let place = element(names.alloc, ops, Elements { count, words }, place, q, d)?;
    let next = forward(d, 1 + u64::from(all))?;
    Ok(Spot { place, next })
}

/// A value of one type as one of another.
pub fn converted(
    names: &Names<'_>,
    from: TypeTree,
    to: TypeTree,
    value: Value,
    ops: &mut Ops,
) -> Result<Value, AllocError>
    ensures at { IfOk result (λ x. x.at ≡ (converted_code from to value.at value.next).at) }
    ensures next { IfOk result (λ x. x.next ≡ value.next + size names.now to) }
    ensures code { OnOk result (ops.new ≡ ops.old ++ (converted_code from to value.at value.next).ops) }
{
    let Value { at, next: d } = value;
    let count = names.size(to)?;
    let at = convert(names.alloc, ops, from, to, at, d)?;
    let next = forward(d, u64::from(count))?;
    Ok(Value { at, next })
}

/// The scalar in which a type is reckoned.
pub fn scalar(t: TypeTree) -> Scalar
    ensures { result ≡ scalar_of t }
{
    match t {
        TypeTree::Scalar { of } | TypeTree::Vector { of, .. } => of,
        TypeTree::Struct { .. } | TypeTree::Array { .. } => Scalar::Uint,
    }
}

/// An operator on two values, the right one of type `of`.
pub fn pairs(
    names: &Names<'_>,
    operator: BinaryOperator,
    t: TypeTree,
    of: TypeTree,
    left: &Words,
    right: Value,
    ops: &mut Ops,
) -> Result<Value, AllocError>
    ensures at { IfOk result (λ x. x.at ≡ run_of right.next (size names.now of)) }
    ensures next { IfOk result (λ x. x.next ≡ right.next + (size names.now of + 1)) }
    ensures code { OnOk result (ops.new ≡ ops.old ++ pair_ops (form_of operator (scalar_of t)) left.now right.at right.next) }
{
    let count = names.size(of)?;
    let d = right.next;
    emit_pairs(ops, form(operator, scalar(t)), left, &right.at, d)?;
    let at = run(names.alloc, d, u64::from(count))?;
    let next = forward(d, u64::from(count) + 1)?;
    Ok(Value { at, next })
}

/// A block that also copies its value into registers from one on.
fn copied(branch: Branch, to: u32) -> Result<Ops, AllocError>
    ensures { IfOk result (λ ops. ops ≡ branch.ops ++ copies branch.at to) }
{
    let Branch {
        mut ops,
        at,
        next: _,
    } = branch;
    emit_each(&mut ops, WordCode::Copy, &at, to)?;
    Ok(ops)
}

/// One of two values by register `a`, where their blocks use registers from `d` on.
pub fn choose(
    names: &Names<'_>,
    t: TypeTree,
    a: u32,
    d: u32,
    yes: Branch,
    no: Branch,
    ops: &mut Ops,
) -> Result<Spot, AllocError>
    requires { d ≤ yes.next }
    ensures place { IfOk result (λ x. x.place ≡ place.Fixed (no.next + (yes.next - d))) }
    ensures next { IfOk result (λ x. x.next ≡ no.next + (yes.next - d) + size names.now t) }
    ensures code { OnOk result (ops.new ≡ ops.old ++ o.If a (yes.ops ++ copies yes.at (no.next + (yes.next - d))) (no.ops ++ copies no.at (no.next + (yes.next - d))) ∷ []) }
{
    let top = forward(no.next, u64::from(yes.next - d))?;
    let count = names.size(t)?;
    let next = forward(top, u64::from(count))?;
    let yes = copied(yes, top)?;
    let no = copied(no, top)?;
    ops.push(Op::If { a, yes, no })?;
    Ok(Spot {
        place: Where::Fixed { at: top },
        next,
    })
}

/// The registers of one value behind those of others.
pub fn append(list: &mut Words, more: &Words) -> Result<(), AllocError>
    ensures { OnOk result (list.new ≡ list.old ++ more.now) }
{
    for register in more.as_slice() {
        list.push(*register)?;
    }
    Ok(())
}

/// A block of one operation.
pub fn one_op(alloc: Global, op: Op) -> Result<Ops, AllocError>
    ensures { IfOk result (λ ops. ops ≡ op ∷ []) }
{
    let mut ops = Items::new(alloc);
    ops.push(op)?;
    Ok(ops)
}

/// A word in register `d`, which begins as that of `a`: one of two blocks changes it where it is true, the other where it is false.
pub fn decided(
    names: &Names<'_>,
    of: TypeTree,
    a: u32,
    d: u32,
    next: u32,
    yes: Ops,
    no: Ops,
    ops: &mut Ops,
) -> Result<Value, AllocError>
    ensures at { IfOk result (λ x. x.at ≡ d ∷ []) }
    ensures next { IfOk result (λ x. x.next ≡ next + size names.now of) }
    ensures code { OnOk result (ops.new ≡ ops.old ++ o.Copy d a ∷ o.If d yes no ∷ []) }
{
    let count = names.size(of)?;
    let next = forward(next, u64::from(count))?;
    let at = run(names.alloc, d, 1)?;
    ops.push(Op::Copy { d, a })?;
    ops.push(Op::If { a: d, yes, no })?;
    Ok(Value { at, next })
}

/// Words in registers one after another.
pub fn fixed(at: u32, next: u32) -> Spot
    ensures { result ≡ record { place = place.Fixed at; next = next } }
{
    Spot {
        place: Where::Fixed { at },
        next,
    }
}

/// A value's registers as a place.
pub fn held(at: Words, next: u32) -> Spot
    ensures { result ≡ record { place = place.Held at; next = next } }
{
    Spot {
        place: Where::Held { registers: at },
        next,
    }
}
