ghost use Rattle.std.specs.Prelude.{◌≡◌, IfOk, false, map};
ghost use Rattle.wg_typed.specs.Operators.{scalar_of, is_signed, is_wide, held_as, combined, prefixed, stepped, pairwise, combined_words, prefixed_words, stepped_words};
ghost use Rattle.wg_words.specs.Truth.{truth};

use crate::wide::{combine_wide, is_of_wide, prefix_wide, step_wide};
use std::alloc::{AllocError, Global};
use wg_tree::{BinaryOperator, PrefixOperator, Scalar, StepOperator};
use wg_typed::{TypeTree, combine_32, prefix_32};
use wg_words::{Word, Words, add, sub};

/// `true` is 1 and `false` 0.
pub fn truth_word(value: bool) -> Word
    ensures { result ≡ truth value }
{
    u32::from(value)
}

/// Whether the numbers of a scalar are signed.
pub fn is_signed_scalar(s: Scalar) -> bool
    ensures { result ≡ is_signed s }
{
    match s {
        Scalar::Int | Scalar::Int16 | Scalar::Int64 => true,
        Scalar::Bool | Scalar::Uint | Scalar::Uint16 | Scalar::Uint64 => false,
    }
}

/// The scalar of which a type is made.
pub fn scalar(t: TypeTree) -> Scalar
    ensures { result ≡ scalar_of t }
{
    match t {
        TypeTree::Scalar { of } | TypeTree::Vector { of, .. } => of,
        TypeTree::Struct { .. } | TypeTree::Array { .. } => Scalar::Uint,
    }
}

/// A two-sided operator on two words of a scalar of 32 bits.
#[tactic(auto, using(crate::proofs::OneNumber::combined_same))]
pub fn combine_narrow(operator: BinaryOperator, s: Scalar, a: Word, b: Word) -> Word
    requires narrow { is_wide s ≡ false }
    ensures { result ≡ combined operator s a b }
{
    combine_32(operator, is_signed_scalar(s), a, b)
}

#[tactic(auto, using(crate::proofs::Lists::pairwise_next, crate::proofs::Lists::pairwise_ends))]
fn combine_words(
    alloc: Global,
    operator: BinaryOperator,
    s: Scalar,
    a: &[Word],
    b: &[Word],
) -> Result<Words, AllocError>
    requires narrow { is_wide s ≡ false }
    ensures { IfOk result (λ list. list ≡ pairwise (combined operator s) a.now b.now) }
{
    let mut list = Words::new(alloc);
    let count = a.len().min(b.len());
    for at in 0..count {
        list.push(combine_narrow(operator, s, a[at], b[at]))?;
    }
    Ok(list)
}

/// A two-sided operator on two values of a type; the right one of a shift is of any.
#[tactic(auto, using(crate::proofs::OneNumber::combined_words_narrow))]
pub fn combine_all(
    alloc: Global,
    operator: BinaryOperator,
    t: TypeTree,
    a: &[Word],
    b: &[Word],
) -> Result<Words, AllocError>
    ensures { IfOk result (λ list. list ≡ combined_words operator t a.now b.now) }
{
    let s = scalar(t);
    if is_of_wide(s) {
        combine_wide(alloc, operator, s, a, b)
    } else {
        combine_words(alloc, operator, s, a, b)
    }
}

#[tactic(auto, using(crate::proofs::OneNumber::narrow_width))]
fn prefix(operator: PrefixOperator, s: Scalar, a: Word) -> Word
    requires narrow { is_wide s ≡ false }
    ensures { result ≡ prefixed operator s a }
{
    prefix_32(operator, a)
}

fn prefix_words(
    alloc: Global,
    operator: PrefixOperator,
    s: Scalar,
    a: &[Word],
) -> Result<Words, AllocError>
    requires narrow { is_wide s ≡ false }
    ensures { IfOk result (λ list. list ≡ map (prefixed operator s) a.now) }
{
    let mut list = Words::new(alloc);
    for x in a {
        list.push(prefix(operator, s, *x))?;
    }
    Ok(list)
}

/// An operator before a value of a type.
#[tactic(auto, using(crate::proofs::OneNumber::prefixed_words_narrow))]
pub fn prefix_all(
    alloc: Global,
    operator: PrefixOperator,
    t: TypeTree,
    a: &[Word],
) -> Result<Words, AllocError>
    ensures { IfOk result (λ list. list ≡ prefixed_words operator t a.now) }
{
    let s = scalar(t);
    if is_of_wide(s) {
        prefix_wide(alloc, operator, s, a)
    } else {
        prefix_words(alloc, operator, s, a)
    }
}

/// A word as one of the scalar: a `bool` is 0 or 1.
pub fn hold(s: Scalar, a: Word) -> Word
    ensures { result ≡ held_as s a }
{
    match s {
        Scalar::Bool => truth_word(a != 0),
        Scalar::Int
        | Scalar::Uint
        | Scalar::Int16
        | Scalar::Uint16
        | Scalar::Int64
        | Scalar::Uint64 => a,
    }
}

#[tactic(auto, using(crate::proofs::OneNumber::narrow_width))]
fn step(operator: StepOperator, s: Scalar, a: Word) -> Word
    requires narrow { is_wide s ≡ false }
    ensures { result ≡ stepped operator s a }
{
    match operator {
        StepOperator::Increment => hold(s, add(a, 1)),
        StepOperator::Decrement => hold(s, sub(a, 1)),
    }
}

fn step_words(
    alloc: Global,
    operator: StepOperator,
    s: Scalar,
    a: &[Word],
) -> Result<Words, AllocError>
    requires narrow { is_wide s ≡ false }
    ensures { IfOk result (λ list. list ≡ map (stepped operator s) a.now) }
{
    let mut list = Words::new(alloc);
    for x in a {
        list.push(step(operator, s, *x))?;
    }
    Ok(list)
}

/// `++` or `--` of a value of a type.
#[tactic(auto, using(crate::proofs::OneNumber::stepped_words_narrow))]
pub fn step_all(
    alloc: Global,
    operator: StepOperator,
    t: TypeTree,
    a: &[Word],
) -> Result<Words, AllocError>
    ensures { IfOk result (λ list. list ≡ stepped_words operator t a.now) }
{
    let s = scalar(t);
    if is_of_wide(s) {
        step_wide(alloc, operator, s, a)
    } else {
        step_words(alloc, operator, s, a)
    }
}
