ghost use Rattle.std.specs.Prelude.{◌≡◌, ◌+◌, ◌*◌, ◌-◌, [], ◌∷◌, ◌++◌, IfOk, OnOk};
ghost use Rattle.wg_code.specs.declared.op.Op.TheVariants as o;
ghost use Rattle.wg_lowered.specs.Exprs.{element_code};
ghost use Rattle.wg_lowered.specs.declared.places.Where.TheVariants as place;

use crate::each::{WordCode, emit_each};
use crate::registers::forward;
use sqlite_items::Items;
use std::alloc::{AllocError, Global};
use wg_code::{Op, Ops};
use wg_lowered::{Space, Where};
use wg_words::Words;

/// An array: how many elements it has, and the words of each.
#[derive(Clone, Copy, Debug, PartialEq, Eq)]
pub struct Elements {
    pub count: u32,
    pub words: u32,
}

/// How many words the array has. There is no memory for 2^32.
fn all_words(of: Elements) -> Result<u32, AllocError>
    ensures { IfOk result (λ n. n ≡ of.count * of.words) }
{
    match of.count.checked_mul(of.words) {
        Some(words) => Ok(words),
        None => Err(AllocError),
    }
}

/// The code of where the element of an index begins.
fn begin_of(alloc: Global, words: u32, q: u32, d: u32) -> Result<Ops, AllocError>
    ensures { IfOk result (λ ops. ops ≡ o.Set d words ∷ o.Binary 2 d q d ∷ []) }
{
    let mut ops = Items::new(alloc);
    ops.push(Op::Set { d, value: words })?;
    ops.push(Op::Binary {
        op: 2,
        d,
        a: q,
        b: d,
    })?;
    Ok(ops)
}

/// The same, in a range that itself begins where a register says.
fn begin_behind(alloc: Global, words: u32, base: u32, q: u32, d: u32) -> Result<Ops, AllocError>
    ensures { IfOk result (λ ops. ops ≡ o.Set d words ∷ o.Binary 2 d q d ∷ o.Binary 0 d base d ∷ []) }
{
    let mut ops = begin_of(alloc, words, q, d)?;
    ops.push(Op::Binary {
        op: 0,
        d,
        a: base,
        b: d,
    })?;
    Ok(ops)
}

fn fixed_word(alloc: Global, value: u32, d: u32) -> Result<Ops, AllocError>
    ensures { IfOk result (λ ops. ops ≡ o.Set d value ∷ []) }
{
    let mut ops = Items::new(alloc);
    ops.push(Op::Set { d, value })?;
    Ok(ops)
}

/// One code for an index below so many, in register `q`, and a fixed word for any other.
fn emit_index(
    alloc: Global,
    ops: &mut Ops,
    count: u32,
    inside: Ops,
    outside: u32,
    q: u32,
    d: u32,
) -> Result<(), AllocError>
    ensures { OnOk result (ops.new ≡ ops.old ++ o.Set d count ∷ o.Binary 14 d q d ∷ o.If d inside (o.Set d outside ∷ []) ∷ []) }
{
    let no = fixed_word(alloc, outside, d)?;
    ops.push(Op::Set { d, value: count })?;
    ops.push(Op::Binary {
        op: 14,
        d,
        a: q,
        b: d,
    })?;
    ops.push(Op::If {
        a: d,
        yes: inside,
        no,
    })
}

/// An element of a variable of the lane.
fn of_fixed(
    alloc: Global,
    ops: &mut Ops,
    of: Elements,
    at: u32,
    q: u32,
    d: u32,
) -> Result<Where, AllocError>
    ensures at { IfOk result (λ w. w ≡ (element_code of.count of.words (place.Fixed at) q d).at) }
    ensures ops { OnOk result (ops.new ≡ ops.old ++ (element_code of.count of.words (place.Fixed at) q d).ops) }
{
    let all = all_words(of)?;
    let to = forward(at, u64::from(all))?;
    let inside = begin_of(alloc, of.words, q, d)?;
    emit_index(alloc, ops, of.count, inside, all, q, d)?;
    Ok(Where::Ranged {
        space: Space::Own,
        from: at,
        to,
        index: d,
    })
}

/// An element of a value, which is copied into registers one after another.
fn of_held(
    alloc: Global,
    ops: &mut Ops,
    of: Elements,
    registers: &Words,
    q: u32,
    d: u32,
) -> Result<Where, AllocError>
    ensures at { IfOk result (λ w. w ≡ (element_code of.count of.words (place.Held registers.now) q d).at) }
    ensures ops { OnOk result (ops.new ≡ ops.old ++ (element_code of.count of.words (place.Held registers.now) q d).ops) }
{
    let all = all_words(of)?;
    let to = forward(d, u64::from(all))?;
    emit_each(ops, WordCode::Copy, registers, d)?;
    let inside = begin_of(alloc, of.words, q, to)?;
    emit_index(alloc, ops, of.count, inside, all, q, to)?;
    Ok(Where::Ranged {
        space: Space::Own,
        from: d,
        to,
        index: to,
    })
}

/// An element of a range.
fn of_range(
    alloc: Global,
    ops: &mut Ops,
    of: Elements,
    space: Space,
    from: u32,
    to: u32,
    index: u32,
    q: u32,
    d: u32,
) -> Result<Where, AllocError>
    ensures at { IfOk result (λ w. w ≡ (element_code of.count of.words (place.Ranged space from to index) q d).at) }
    ensures ops { OnOk result (ops.new ≡ ops.old ++ (element_code of.count of.words (place.Ranged space from to index) q d).ops) }
{
    let outside = to.saturating_sub(from);
    let inside = begin_behind(alloc, of.words, index, q, d)?;
    emit_index(alloc, ops, of.count, inside, outside, q, d)?;
    Ok(Where::Ranged {
        space,
        from,
        to,
        index: d,
    })
}

/// The element of an array whose index stands in register `q`; registers from `d` on are free.
pub fn element(
    alloc: Global,
    ops: &mut Ops,
    of: Elements,
    place: Where,
    q: u32,
    d: u32,
) -> Result<Where, AllocError>
    ensures at { IfOk result (λ w. w ≡ (element_code of.count of.words place q d).at) }
    ensures ops { OnOk result (ops.new ≡ ops.old ++ (element_code of.count of.words place q d).ops) }
{
    match place {
        Where::Fixed { at } => of_fixed(alloc, ops, of, at, q, d),
        Where::Held { registers } => of_held(alloc, ops, of, &registers, q, d),
        Where::Ranged {
            space,
            from,
            to,
            index,
        } => of_range(alloc, ops, of, space, from, to, index, q, d),
    }
}
