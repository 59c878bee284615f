ghost use Rattle.std.specs.Prelude.{◌≡◌, IfOk, false, if◌then◌else◌, map};
ghost use Rattle.wg_typed.specs.Operators.{is_wide, is_less, pairwise};
ghost use Rattle.wg_words.specs.Truth.{is_true};
ghost use Rattle.wg_typed.specs.Intrinsics.{least, greatest, absolute, is_any_true, are_all_true, selected, argument, called_with, called_words};
ghost use Rattle.wg_values.specs.PerWord.{one_word, two_words};

use crate::operators::{combine_narrow, scalar, truth_word};
use crate::wide::{is_of_wide, wide_call};
use std::alloc::{AllocError, Global};
use wg_tree::{BinaryOperator, Scalar};
use wg_typed::{Intrinsic, TypeTree};
use wg_words::{Word, WordLists, Words, add, count_bits, first_high, first_low, mul, reverse, sub};

/// Whether a word of a scalar of 32 bits is less than another.
fn less(s: Scalar, a: Word, b: Word) -> bool
    requires narrow { is_wide s ≡ false }
    ensures { result ≡ is_less s a b }
{
    combine_narrow(BinaryOperator::Less, s, a, b) != 0
}

/// The lesser of two words of a scalar of 32 bits.
fn lesser(s: Scalar, a: Word, b: Word) -> Word
    requires narrow { is_wide s ≡ false }
    ensures { result ≡ least s a b }
{
    if less(s, b, a) { b } else { a }
}

/// The greater of two words of a scalar of 32 bits.
fn greater(s: Scalar, a: Word, b: Word) -> Word
    requires narrow { is_wide s ≡ false }
    ensures { result ≡ greatest s a b }
{
    if less(s, a, b) { b } else { a }
}

#[tactic(auto, using(crate::proofs::OneNumber::narrow_width))]
fn magnitude(s: Scalar, a: Word) -> Word
    requires narrow { is_wide s ≡ false }
    ensures { result ≡ absolute s a }
{
    if less(s, a, 0) { sub(0, a) } else { a }
}

/// What is made of one component.
#[derive(Clone, Copy)]
pub enum OfOne {
    Magnitude,
    CountOfBits,
    HighestBit,
    LowestBit,
    Reversed,
}

/// What is made of two components.
#[derive(Clone, Copy)]
pub enum OfTwo {
    Lesser,
    Greater,
    Product,
    Sum,
    Both,
    Either,
}

#[tactic(auto, using(crate::proofs::OneNumber::narrow_width))]
fn of_one(call: OfOne, s: Scalar, a: Word) -> Word
    requires narrow { is_wide s ≡ false }
    ensures { result ≡ one_word call s a }
{
    match call {
        OfOne::Magnitude => magnitude(s, a),
        OfOne::CountOfBits => count_bits(a),
        OfOne::HighestBit => first_high(a),
        OfOne::LowestBit => first_low(a),
        OfOne::Reversed => reverse(a),
    }
}

#[tactic(auto, using(crate::proofs::OneNumber::narrow_width))]
fn of_two(call: OfTwo, s: Scalar, a: Word, b: Word) -> Word
    requires narrow { is_wide s ≡ false }
    ensures { result ≡ two_words call s a b }
{
    match call {
        OfTwo::Lesser => lesser(s, a, b),
        OfTwo::Greater => greater(s, a, b),
        OfTwo::Product => mul(a, b),
        OfTwo::Sum => add(a, b),
        OfTwo::Both => truth_word(a != 0 && b != 0),
        OfTwo::Either => truth_word(a != 0 || b != 0),
    }
}

fn each_word(alloc: Global, call: OfOne, s: Scalar, a: &[Word]) -> Result<Words, AllocError>
    requires narrow { is_wide s ≡ false }
    ensures { IfOk result (λ list. list ≡ map (one_word call s) a.now) }
{
    let mut list = Words::new(alloc);
    for x in a {
        list.push(of_one(call, s, *x))?;
    }
    Ok(list)
}

#[tactic(auto, using(crate::proofs::Lists::pairwise_next, crate::proofs::Lists::pairwise_ends))]
fn each_pair(
    alloc: Global,
    call: OfTwo,
    s: Scalar,
    a: &[Word],
    b: &[Word],
) -> Result<Words, AllocError>
    requires narrow { is_wide s ≡ false }
    ensures { IfOk result (λ list. list ≡ pairwise (two_words call s) a.now b.now) }
{
    let mut list = Words::new(alloc);
    let count = a.len().min(b.len());
    for at in 0..count {
        list.push(of_two(call, s, a[at], b[at]))?;
    }
    Ok(list)
}

fn any_true(a: &[Word]) -> bool
    ensures { result ≡ is_any_true a.now }
{
    for x in a {
        if *x != 0 {
            return true;
        }
    }
    false
}

fn all_true(a: &[Word]) -> bool
    ensures { result ≡ are_all_true a.now }
{
    for x in a {
        if *x == 0 {
            return false;
        }
    }
    true
}

fn pick(c: Word, a: Word, b: Word) -> Word
    ensures { result ≡ if is_true c then a else b }
{
    if c != 0 { a } else { b }
}

#[tactic(auto, using(crate::proofs::Lists::selected_next, crate::proofs::Lists::selected_ends))]
fn choose(alloc: Global, c: &[Word], a: &[Word], b: &[Word]) -> Result<Words, AllocError>
    ensures { IfOk result (λ list. list ≡ selected c.now a.now b.now) }
{
    let mut list = Words::new(alloc);
    let count = c.len().min(a.len()).min(b.len());
    for at in 0..count {
        list.push(pick(c[at], a[at], b[at]))?;
    }
    Ok(list)
}

fn given(arguments: &WordLists, at: usize) -> &[Word]
    ensures { result.now ≡ argument arguments.now at }
{
    match arguments.get(at) {
        Some(words) => words.as_slice(),
        None => &[],
    }
}

/// What a call makes of its arguments, where the scalar has 32 bits.
#[tactic(auto, using(crate::proofs::OneNumber::narrow_width))]
fn narrow_call(
    alloc: Global,
    call: Intrinsic,
    s: Scalar,
    arguments: &WordLists,
) -> Result<Words, AllocError>
    requires narrow { is_wide s ≡ false }
    ensures { IfOk result (λ list. list ≡ called_with call s arguments.now) }
{
    let a = given(arguments, 0);
    let b = given(arguments, 1);
    let c = given(arguments, 2);
    match call {
        Intrinsic::Min => each_pair(alloc, OfTwo::Lesser, s, a, b),
        Intrinsic::Max => each_pair(alloc, OfTwo::Greater, s, a, b),
        Intrinsic::And => each_pair(alloc, OfTwo::Both, s, a, b),
        Intrinsic::Or => each_pair(alloc, OfTwo::Either, s, a, b),
        Intrinsic::Clamp => {
            let raised = each_pair(alloc, OfTwo::Greater, s, a, b)?;
            each_pair(alloc, OfTwo::Lesser, s, raised.as_slice(), c)
        }
        Intrinsic::MultiplyAdd => {
            let products = each_pair(alloc, OfTwo::Product, s, a, b)?;
            each_pair(alloc, OfTwo::Sum, s, products.as_slice(), c)
        }
        Intrinsic::Abs => each_word(alloc, OfOne::Magnitude, s, a),
        Intrinsic::CountBits => each_word(alloc, OfOne::CountOfBits, s, a),
        Intrinsic::FirstBitHigh => each_word(alloc, OfOne::HighestBit, s, a),
        Intrinsic::FirstBitLow => each_word(alloc, OfOne::LowestBit, s, a),
        Intrinsic::ReverseBits => each_word(alloc, OfOne::Reversed, s, a),
        Intrinsic::Any => Words::from_slice(alloc, &[truth_word(any_true(a))]),
        Intrinsic::All => Words::from_slice(alloc, &[truth_word(all_true(a))]),
        Intrinsic::Select => choose(alloc, a, b, c),
    }
}

/// What a call makes of its arguments.
#[tactic(auto, using(crate::proofs::OneNumber::called_narrow))]
pub fn intrinsic(
    alloc: Global,
    call: Intrinsic,
    t: TypeTree,
    arguments: &WordLists,
) -> Result<Words, AllocError>
    ensures { IfOk result (λ list. list ≡ called_words call t arguments.now) }
{
    let s = scalar(t);
    if is_of_wide(s) {
        wide_call(alloc, call, s, arguments)
    } else {
        narrow_call(alloc, call, s, arguments)
    }
}
