ghost use Rattle.std.specs.Prelude.{◌≡◌, ◌+◌, ◌++◌, IfOk, OnOk, map, option_map};
ghost use Rattle.wg_lowered.specs.Exprs.{coded, kind_code, kind_step, formed, joined, value_code, value_need, indexed_code, forms_code, forms_need, operated_code, operated_need, later_ops, links_code, links_need, parts_code, parts_need, index_code, index_need};
ghost use Rattle.wg_lowered.specs.Where.{size};
ghost use Rattle.wg_lowered.specs.declared.places.Where.TheVariants as place;
ghost use Rattle.wg_lower_expressions.specs.Results.{reckoned_code};
ghost use Rattle.wg_tree.specs.declared.expr.BinaryOperator.TheVariants as binary;
ghost use Rattle.wg_typed.specs.declared.typed_expr.Access.TheOpen.{TypedKind-F};

use crate::leaves::{
    Branch, Spot, Value, append, choose, converted, decided, element_at, field, fixed, held,
    literal, one_op, one_word, pairs, shared, swizzle, zero_index, zeros,
};
use crate::names::Names;
use sqlite_items::{Boxed, Items};
use std::alloc::AllocError;
use wg_code::{Op, Ops};
use wg_emit::{WordCode, emit_each, fetch, forward, register_at};
use wg_lowered::Where;
use wg_tree::{BinaryOperator, PrefixOperator};
use wg_typed::{Access, TypeTree, TypedExpr, TypedKind, TypedLink};
use wg_words::Words;

/// Emits the code of an expression, where registers from `d` on are free: its answer is where the words stand.
#[cycle(expr)]
pub fn spot(names: &Names<'_>, e: &TypedExpr, d: u32, ops: &mut Ops) -> Result<Spot, AllocError>
    ensures place { IfOk result (λ x. x.place ≡ ((coded names.now e.now).spot d).at) }
    ensures next { IfOk result (λ x. x.next ≡ d + (coded names.now e.now).need) }
    ensures code { OnOk result (ops.new ≡ ops.old ++ ((coded names.now e.now).spot d).ops) }
{
    kind(names, &e.kind, e.of, d, ops)
}

/// Emits the code of an expression's value: its answer is the registers of the words.
#[cycle(expr)]
pub fn value(names: &Names<'_>, e: &TypedExpr, d: u32, ops: &mut Ops) -> Result<Value, AllocError>
    ensures at { IfOk result (λ x. x.at ≡ (value_code names.now (coded names.now e.now) d).at) }
    ensures next { IfOk result (λ x. x.next ≡ d + value_need names.now (coded names.now e.now)) }
    ensures code { OnOk result (ops.new ≡ ops.old ++ (value_code names.now (coded names.now e.now) d).ops) }
{
    let Spot { place, next } = spot(names, e, d, ops)?;
    let count = names.size(e.of)?;
    let at = fetch(names.alloc, ops, place, count, next)?;
    let next = forward(next, u64::from(count))?;
    Ok(Value { at, next })
}

/// The code of a value in a block of its own.
#[cycle(expr)]
fn branch(names: &Names<'_>, e: &TypedExpr, d: u32) -> Result<Branch, AllocError>
    ensures at { IfOk result (λ x. x.at ≡ (value_code names.now (coded names.now e.now) d).at) }
    ensures next { IfOk result (λ x. x.next ≡ d + value_need names.now (coded names.now e.now)) }
    ensures code { IfOk result (λ x. x.ops ≡ (value_code names.now (coded names.now e.now) d).ops) }
{
    let mut ops = Items::new(names.alloc);
    let Value { at, next } = value(names, e, d, &mut ops)?;
    Ok(Branch { ops, at, next })
}

#[cycle(expr)]
fn index(
    names: &Names<'_>,
    at: &Option<Boxed<TypedExpr>>,
    d: u32,
    ops: &mut Ops,
) -> Result<Value, AllocError>
    ensures at { IfOk result (λ x. x.at ≡ (index_code names.now (option_map (coded names.now) at.now) d).at) }
    ensures next { IfOk result (λ x. x.next ≡ d + index_need names.now (option_map (coded names.now) at.now)) }
    ensures code { OnOk result (ops.new ≡ ops.old ++ (index_code names.now (option_map (coded names.now) at.now) d).ops) }
{
    match at {
        Some(e) => value(names, e.get(), d, ops),
        None => zero_index(names.alloc, d, ops),
    }
}

/// The forms after a value, from left to right.
#[cycle(expr)]
fn follow(
    names: &Names<'_>,
    forms: &Items<Access>,
    of: TypeTree,
    base: Spot,
    ops: &mut Ops,
) -> Result<Spot, AllocError>
    ensures place { IfOk result (λ x. x.place ≡ (forms_code (map (formed names.now) forms.now) of base.place base.next).at) }
    ensures next { IfOk result (λ x. x.next ≡ base.next + forms_need (map (formed names.now) forms.now) of) }
    ensures code { OnOk result (ops.new ≡ ops.old ++ (forms_code (map (formed names.now) forms.now) of base.place base.next).ops) }
{
    let mut x = base;
    let mut t = of;
    for form in forms.as_slice() {
        x = access(names, form, t, x, ops)?;
        t = type_after(names, form);
    }
    Ok(x)
}

#[cycle(expr)]
fn access(
    names: &Names<'_>,
    form: &Access,
    t: TypeTree,
    base: Spot,
    ops: &mut Ops,
) -> Result<Spot, AllocError>
    ensures place { IfOk result (λ x. x.place ≡ ((formed names.now form.now).after t base.place base.next).at) }
    ensures next { IfOk result (λ x. x.next ≡ base.next + (formed names.now form.now).need t) }
    ensures code { OnOk result (ops.new ≡ ops.old ++ ((formed names.now form.now).after t base.place base.next).ops) }
{
    match form {
        Access::Field { field: number, .. } => field(names, t, *number, base),
        Access::Components { components, .. } => swizzle(names.alloc, components, base, ops),
        Access::Index { index, of } => indexed(names, index, *of, t, base, ops),
    }
}

/// An element of an array.
#[cycle(expr)]
fn indexed(
    names: &Names<'_>,
    index: &TypedExpr,
    of: TypeTree,
    t: TypeTree,
    base: Spot,
    ops: &mut Ops,
) -> Result<Spot, AllocError>
    ensures place { IfOk result (λ x. x.place ≡ (indexed_code names.now (coded names.now index.now) of t base.place base.next).at) }
    ensures next { IfOk result (λ x. x.next ≡ base.next + (value_need names.now (coded names.now index.now) + (1 + size names.now t))) }
    ensures code { OnOk result (ops.new ≡ ops.old ++ (indexed_code names.now (coded names.now index.now) of t base.place base.next).ops) }
{
    let Spot { place, next: d } = base;
    let i = value(names, index, d, ops)?;
    let next = i.next;
    element_at(
        names,
        of,
        t,
        register_at(&i.at, 0),
        Spot { place, next },
        ops,
    )
}

/// The type of what a form gives.
fn type_after(_names: &Names<'_>, form: &Access) -> TypeTree
    ensures { result ≡ (formed _names.now form.now).of }
{
    match form {
        Access::Field { of, .. } | Access::Components { of, .. } | Access::Index { of, .. } => *of,
    }
}

/// The operators of a chain, from left to right.
#[cycle(expr)]
fn chain(
    names: &Names<'_>,
    rest: &Items<TypedLink>,
    of: TypeTree,
    first: Value,
    ops: &mut Ops,
) -> Result<Spot, AllocError>
    ensures place { IfOk result (λ x. x.place ≡ place.Held (links_code (map (joined names.now) rest.now) of first.at first.next).at) }
    ensures next { IfOk result (λ x. x.next ≡ first.next + links_need (map (joined names.now) rest.now) of) }
    ensures code { OnOk result (ops.new ≡ ops.old ++ (links_code (map (joined names.now) rest.now) of first.at first.next).ops) }
{
    let mut x = first;
    let mut t = of;
    for link in rest.as_slice() {
        x = link_after(names, link, t, x, ops)?;
        t = link.of;
    }
    let Value { at, next } = x;
    Ok(held(at, next))
}

#[cycle(expr)]
fn link_after(
    names: &Names<'_>,
    link: &TypedLink,
    t: TypeTree,
    left: Value,
    ops: &mut Ops,
) -> Result<Value, AllocError>
    ensures at { IfOk result (λ x. x.at ≡ ((joined names.now link.now).after t left.at left.next).at) }
    ensures next { IfOk result (λ x. x.next ≡ left.next + (joined names.now link.now).need t) }
    ensures code { OnOk result (ops.new ≡ ops.old ++ ((joined names.now link.now).after t left.at left.next).ops) }
{
    match link.before {
        None => operate(names, link.operator, t, &link.operand, left, ops),
        Some(by) => {
            let left = converted(names, t, by, left, ops)?;
            operate(names, link.operator, by, &link.operand, left, ops)
        }
    }
}

/// An operator on a value and an expression; the code of `&&` and `||` runs the right side only where it counts.
#[cycle(expr)]
fn operate(
    names: &Names<'_>,
    operator: BinaryOperator,
    t: TypeTree,
    e: &TypedExpr,
    left: Value,
    ops: &mut Ops,
) -> Result<Value, AllocError>
    ensures at { IfOk result (λ x. x.at ≡ (operated_code names.now operator t (coded names.now e.now) left.at left.next).at) }
    ensures next { IfOk result (λ x. x.next ≡ left.next + operated_need names.now (coded names.now e.now)) }
    ensures code { OnOk result (ops.new ≡ ops.old ++ (operated_code names.now operator t (coded names.now e.now) left.at left.next).ops) }
{
    match operator {
        BinaryOperator::And => both(names, t, e, left, ops),
        BinaryOperator::Or => either(names, t, e, left, ops),
        _ => reckon(names, operator, t, e, left, ops),
    }
}

/// An operator that takes both of its sides.
#[cycle(expr)]
fn reckon(
    names: &Names<'_>,
    operator: BinaryOperator,
    t: TypeTree,
    e: &TypedExpr,
    left: Value,
    ops: &mut Ops,
) -> Result<Value, AllocError>
    ensures at { IfOk result (λ x. x.at ≡ (reckoned_code names.now operator t (coded names.now e.now) left.at left.next).at) }
    ensures next { IfOk result (λ x. x.next ≡ left.next + operated_need names.now (coded names.now e.now)) }
    ensures code { OnOk result (ops.new ≡ ops.old ++ (reckoned_code names.now operator t (coded names.now e.now) left.at left.next).ops) }
{
    let Value { at, next: d } = left;
    let right = value(names, e, d, ops)?;
    pairs(names, operator, t, e.of, &at, right, ops)
}

/// The block of a right side whose left one stands in register `d`.
#[cycle(expr)]
fn later(names: &Names<'_>, e: &TypedExpr, d: u32) -> Result<Branch, AllocError>
    ensures next { IfOk result (λ x. x.next ≡ d + 1 + value_need names.now (coded names.now e.now)) }
    ensures code { IfOk result (λ x. x.ops ≡ later_ops names.now (coded names.now e.now) d) }
{
    let from = forward(d, 1)?;
    let mut block = branch(names, e, from)?;
    let a = register_at(&block.at, 0);
    block.ops.push(Op::Copy { d, a })?;
    Ok(block)
}

/// `&&`: the right side where the left one is true.
#[cycle(expr)]
fn both(
    names: &Names<'_>,
    _t: TypeTree,
    e: &TypedExpr,
    left: Value,
    ops: &mut Ops,
) -> Result<Value, AllocError>
    ensures at { IfOk result (λ x. x.at ≡ (operated_code names.now binary.And _t (coded names.now e.now) left.at left.next).at) }
    ensures next { IfOk result (λ x. x.next ≡ left.next + operated_need names.now (coded names.now e.now)) }
    ensures code { OnOk result (ops.new ≡ ops.old ++ (operated_code names.now binary.And _t (coded names.now e.now) left.at left.next).ops) }
{
    let Value { at, next: d } = left;
    let yes = later(names, e, d)?;
    let a = register_at(&at, 0);
    let no = Items::new(names.alloc);
    decided(names, e.of, a, d, yes.next, yes.ops, no, ops)
}

/// `||`: the right side where the left one is false.
#[cycle(expr)]
fn either(
    names: &Names<'_>,
    _t: TypeTree,
    e: &TypedExpr,
    left: Value,
    ops: &mut Ops,
) -> Result<Value, AllocError>
    ensures at { IfOk result (λ x. x.at ≡ (operated_code names.now binary.Or _t (coded names.now e.now) left.at left.next).at) }
    ensures next { IfOk result (λ x. x.next ≡ left.next + operated_need names.now (coded names.now e.now)) }
    ensures code { OnOk result (ops.new ≡ ops.old ++ (operated_code names.now binary.Or _t (coded names.now e.now) left.at left.next).ops) }
{
    let Value { at, next: d } = left;
    let no = later(names, e, d)?;
    let a = register_at(&at, 0);
    let yes = one_op(names.alloc, Op::Set { d, value: 1 })?;
    decided(names, e.of, a, d, no.next, yes, no.ops, ops)
}

/// The values of parts, one behind another.
#[cycle(expr)]
fn construct(
    names: &Names<'_>,
    parts: &Items<TypedExpr>,
    d: u32,
    ops: &mut Ops,
) -> Result<Spot, AllocError>
    ensures place { IfOk result (λ x. x.place ≡ place.Held (parts_code names.now (map (coded names.now) parts.now) d).at) }
    ensures next { IfOk result (λ x. x.next ≡ d + parts_need names.now (map (coded names.now) parts.now)) }
    ensures code { OnOk result (ops.new ≡ ops.old ++ (parts_code names.now (map (coded names.now) parts.now) d).ops) }
{
    let mut at = Words::new(names.alloc);
    let mut next = d;
    for part in parts.as_slice() {
        let more = value(names, part, next, ops)?;
        append(&mut at, &more.at)?;
        next = more.next;
    }
    Ok(held(at, next))
}

/// Whether an element of an output has a unit to which it sends.
#[cycle(expr)]
fn is_valid(
    names: &Names<'_>,
    output: u32,
    element: &Option<Boxed<TypedExpr>>,
    _t: TypeTree,
    d: u32,
    ops: &mut Ops,
) -> Result<Spot, AllocError>
    ensures place { IfOk result (λ x. x.place ≡ ((kind_step names.now (TypedKind-F.IsValid output (option_map (coded names.now) element.now)) _t).spot d).at) }
    ensures next { IfOk result (λ x. x.next ≡ d + (kind_step names.now (TypedKind-F.IsValid output (option_map (coded names.now) element.now)) _t).need) }
    ensures code { OnOk result (ops.new ≡ ops.old ++ ((kind_step names.now (TypedKind-F.IsValid output (option_map (coded names.now) element.now)) _t).spot d).ops) }
{
    let i = index(names, element, d, ops)?;
    let to = i.next;
    one_word(
        Op::Valid {
            d: to,
            output,
            element: register_at(&i.at, 0),
        },
        to,
        ops,
    )
}

/// An operator before an expression.
#[cycle(expr)]
fn prefix(
    names: &Names<'_>,
    operator: PrefixOperator,
    operand: &TypedExpr,
    t: TypeTree,
    d: u32,
    ops: &mut Ops,
) -> Result<Spot, AllocError>
    ensures place { IfOk result (λ x. x.place ≡ ((kind_step names.now (TypedKind-F.Prefix operator (coded names.now operand.now)) t).spot d).at) }
    ensures next { IfOk result (λ x. x.next ≡ d + (kind_step names.now (TypedKind-F.Prefix operator (coded names.now operand.now)) t).need) }
    ensures code { OnOk result (ops.new ≡ ops.old ++ ((kind_step names.now (TypedKind-F.Prefix operator (coded names.now operand.now)) t).spot d).ops) }
{
    let x = value(names, operand, d, ops)?;
    let count = names.size(t)?;
    emit_each(ops, WordCode::Prefix { operator }, &x.at, x.next)?;
    let next = forward(x.next, u64::from(count))?;
    Ok(Spot {
        place: Where::Fixed { at: x.next },
        next,
    })
}

/// A value as one of another type.
#[cycle(expr)]
fn as_type(
    names: &Names<'_>,
    operand: &TypedExpr,
    t: TypeTree,
    d: u32,
    ops: &mut Ops,
) -> Result<Spot, AllocError>
    ensures place { IfOk result (λ x. x.place ≡ ((kind_step names.now (TypedKind-F.Convert (coded names.now operand.now)) t).spot d).at) }
    ensures next { IfOk result (λ x. x.next ≡ d + (kind_step names.now (TypedKind-F.Convert (coded names.now operand.now)) t).need) }
    ensures code { OnOk result (ops.new ≡ ops.old ++ ((kind_step names.now (TypedKind-F.Convert (coded names.now operand.now)) t).spot d).ops) }
{
    let x = value(names, operand, d, ops)?;
    let Value { at, next } = converted(names, operand.of, t, x, ops)?;
    Ok(held(at, next))
}

/// The code of an expression of a kind, by its type.
#[cycle(expr)]
fn kind(
    names: &Names<'_>,
    kind: &TypedKind,
    t: TypeTree,
    d: u32,
    ops: &mut Ops,
) -> Result<Spot, AllocError>
    ensures place { IfOk result (λ x. x.place ≡ ((kind_code names.now kind.now t).spot d).at) }
    ensures next { IfOk result (λ x. x.next ≡ d + (kind_code names.now kind.now t).need) }
    ensures code { OnOk result (ops.new ≡ ops.old ++ ((kind_code names.now kind.now t).spot d).ops) }
{
    match kind {
        TypedKind::Literal { words } => literal(words, d, ops),
        TypedKind::Variable { variable } => Ok(fixed(names.variables.begin(*variable), d)),
        TypedKind::Shared { variable } => shared(names, *variable, t, d, ops),
        TypedKind::Count => one_word(Op::InputCount { d }, d, ops),
        TypedKind::Finished => one_word(Op::Last { d }, d, ops),
        TypedKind::Levels => one_word(Op::Level { d }, d, ops),
        TypedKind::IsValid { output, element } => is_valid(names, *output, element, t, d, ops),
        TypedKind::Zeros => zeros(names, t, d, ops),
        TypedKind::Access { base, forms } => {
            let first = spot(names, base.get(), d, ops)?;
            follow(names, forms, base.get().of, first, ops)
        }
        TypedKind::Prefix { operator, operand } => prefix(
            names,
            *operator,
            operand.get(),
            t,
            d,
            ops,
        ),
        TypedKind::Convert { operand } => as_type(names, operand.get(), t, d, ops),
        TypedKind::Chain { first, rest } => {
            let left = value(names, first.get(), d, ops)?;
            chain(names, rest, first.get().of, left, ops)
        }
        TypedKind::Choice { test, then, other } => {
            let tested = value(names, test.get(), d, ops)?;
            let yes = branch(names, then.get(), tested.next)?;
            let no = branch(names, other.get(), tested.next)?;
            let a = register_at(&tested.at, 0);
            choose(names, t, a, tested.next, yes, no, ops)
        }
        TypedKind::Construct { parts } => construct(names, parts, d, ops),
        TypedKind::Element { .. }
        | TypedKind::Load { .. }
        | TypedKind::Input { .. }
        | TypedKind::Handle { .. }
        | TypedKind::Call { .. }
        | TypedKind::Intrinsic { .. } => Ok(fixed(d, d)),
    }
}
