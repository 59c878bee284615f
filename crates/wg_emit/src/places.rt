ghost use Rattle.std.specs.Prelude.{◌≡◌, ◌+◌, ◌++◌, IfOk, OnOk, map, slice_index};
ghost use Rattle.wg_lowered.specs.Exprs.{components_code, picked};
ghost use Rattle.wg_lowered.specs.Where.{fetched_at, part_of};

use crate::each::{WordCode, emit_each, emit_words};
use crate::registers::{cut, forward, register_at, run};
use std::alloc::{AllocError, Global};
use wg_code::Ops;
use wg_lowered::Where;
use wg_words::Words;

/// The registers of a place's words, where those from `d` on are free.
pub fn fetch(
    alloc: Global,
    ops: &mut Ops,
    place: Where,
    count: u32,
    d: u32,
) -> Result<Words, AllocError>
    ensures at { IfOk result (λ list. list ≡ (fetched_at place count d).at) }
    ensures ops { OnOk result (ops.new ≡ ops.old ++ (fetched_at place count d).ops) }
{
    match place {
        Where::Fixed { at } => run(alloc, at, u64::from(count)),
        Where::Held { registers } => Ok(registers),
        Where::Ranged {
            space,
            from,
            to,
            index,
        } => {
            let numbers = run(alloc, 0, u64::from(count))?;
            let code = WordCode::Get {
                space,
                from,
                to,
                index,
            };
            emit_each(ops, code, &numbers, d)?;
            run(alloc, d, u64::from(count))
        }
    }
}

/// A part of a place, from one word up to another. It takes no code.
pub fn part(alloc: Global, from: u64, to: u64, place: Where) -> Result<Where, AllocError>
    ensures { IfOk result (λ w. w ≡ part_of (record { from = from; to = to }) place) }
{
    match place {
        Where::Fixed { at } => {
            let at = forward(at, from)?;
            Ok(Where::Fixed { at })
        }
        Where::Held { registers } => {
            let registers = cut(alloc, &registers, from, to)?;
            Ok(Where::Held { registers })
        }
        Where::Ranged {
            space,
            from: begin,
            to: end,
            index,
        } => {
            let begin = forward(begin, from)?;
            Ok(Where::Ranged {
                space,
                from: begin,
                to: end,
                index,
            })
        }
    }
}

/// The registers of these numbers behind one.
fn behind(alloc: Global, at: u32, numbers: &Words) -> Result<Words, AllocError>
    ensures { IfOk result (λ list. list ≡ map (λ c. at + c) numbers.now) }
{
    let mut list = Words::new(alloc);
    for number in numbers.as_slice() {
        let register = forward(at, u64::from(*number))?;
        list.push(register)?;
    }
    Ok(list)
}

/// The registers of these numbers among some.
fn among(alloc: Global, registers: &Words, numbers: &Words) -> Result<Words, AllocError>
    ensures { IfOk result (λ list. list ≡ map (slice_index registers.now) numbers.now) }
{
    let mut list = Words::new(alloc);
    for number in numbers.as_slice() {
        list.push(register_at(registers, *number))?;
    }
    Ok(list)
}

/// Components of a place by their numbers, as a value.
fn pick(
    alloc: Global,
    ops: &mut Ops,
    place: Where,
    numbers: &Words,
    d: u32,
) -> Result<Words, AllocError>
    ensures at { IfOk result (λ list. list ≡ (picked place numbers.now d).at) }
    ensures ops { OnOk result (ops.new ≡ ops.old ++ (picked place numbers.now d).ops) }
{
    match place {
        Where::Fixed { at } => behind(alloc, at, numbers),
        Where::Held { registers } => among(alloc, &registers, numbers),
        Where::Ranged {
            space,
            from,
            to,
            index,
        } => emit_words(
            alloc,
            ops,
            WordCode::Get {
                space,
                from,
                to,
                index,
            },
            numbers,
            d,
        ),
    }
}

/// Components of a place by their numbers: of one, its part of the place.
pub fn components(
    alloc: Global,
    ops: &mut Ops,
    place: Where,
    numbers: &Words,
    d: u32,
) -> Result<Where, AllocError>
    ensures at { IfOk result (λ w. w ≡ (components_code numbers.now place d).at) }
    ensures ops { OnOk result (ops.new ≡ ops.old ++ (components_code numbers.now place d).ops) }
{
    match numbers.as_slice() {
        [number] => part(alloc, u64::from(*number), u64::from(*number) + 1, place),
        _ => {
            let registers = pick(alloc, ops, place, numbers, d)?;
            Ok(Where::Held { registers })
        }
    }
}
