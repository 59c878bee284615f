ghost use Rattle.std.specs.Prelude.{◌≡◌, ◌+◌, ◌*◌, ◌^◌, ◌<◌, [], ◌∷◌, IfOk, Some, true, map, slice_get, slice_index, take};
ghost use Rattle.wg_typed.specs.Operators.{width_of, is_wide, is_less, numbers_in, words_for, combined, prefixed, stepped, result_scalar, gives_truth, pairwise};
ghost use Rattle.wg_typed.specs.Intrinsics.{least, greatest, absolute, argument, argument_numbers, called_with};
ghost use Rattle.wg_typed.specs.declared.typed_expr.Intrinsic.TheVariants as intrinsic;

use crate::marks::extend;
use crate::operators::{is_signed_scalar, truth_word};
use crate::words::word_at;
use std::alloc::{AllocError, Global};
use wg_tree::{BinaryOperator, PrefixOperator, Scalar, StepOperator};
use wg_typed::{Intrinsic, combine_16, combine_32, combine_64, prefix_16, prefix_32, prefix_64};
use wg_words::{Word, WordLists, Words};

/// Whether the numbers of a scalar have 16 or 64 bits.
pub fn is_of_wide(s: Scalar) -> bool
    ensures { result ≡ is_wide s }
{
    match s {
        Scalar::Bool | Scalar::Int | Scalar::Uint => false,
        Scalar::Int16 | Scalar::Uint16 | Scalar::Int64 | Scalar::Uint64 => true,
    }
}

/// The one word of a scalar. There are no vectors of wide scalars, so that another number of words, which no typed text
/// has, counts as one that has no room in memory.
fn only_word(words: &[Word]) -> Result<Word, AllocError>
    ensures { IfOk result (λ w. words.now ≡ w ∷ []) }
{
    if words.len() == 1 {
        Ok(words[0])
    } else {
        Err(AllocError)
    }
}

fn first_word(words: &[Word]) -> Result<Word, AllocError>
    ensures { IfOk result (λ w. take 1 words.now ≡ w ∷ []) }
{
    if words.is_empty() {
        Err(AllocError)
    } else {
        Ok(words[0])
    }
}

/// The number of 64 bits of two words, the low one first.
fn long(words: &[Word]) -> u64
    ensures { result ≡ slice_index words.now 0 + 2 ^ 32 * slice_index words.now 1 }
{
    u64::from(word_at(words, 0)) + 4_294_967_296 * u64::from(word_at(words, 1))
}

/// The number of a scalar's value.
pub fn number(s: Scalar, words: &[Word]) -> Result<u64, AllocError>
    ensures { IfOk result (λ n. (numbers_in s words.now ≡ n ∷ []) × (n < 2 ^ width_of s)) }
{
    match s {
        Scalar::Bool | Scalar::Int | Scalar::Uint => {
            let word = only_word(words)?;
            Ok(u64::from(word))
        }
        Scalar::Int16 | Scalar::Uint16 => {
            let word = only_word(words)?;
            Ok(u64::from(word % 65_536))
        }
        Scalar::Int64 | Scalar::Uint64 => Ok(long(words)),
    }
}

/// The words of a scalar's number.
pub fn words_of(alloc: Global, s: Scalar, n: u64) -> Result<Words, AllocError>
    requires { n < 2 ^ width_of s }
    ensures { IfOk result (λ list. list ≡ words_for s (n ∷ [])) }
{
    match s {
        Scalar::Bool | Scalar::Int | Scalar::Uint | Scalar::Uint16 => {
            Words::from_slice(alloc, &[n as u32])
        }
        Scalar::Int16 => Words::from_slice(alloc, &[extend(n as u16)]),
        Scalar::Int64 | Scalar::Uint64 => {
            Words::from_slice(
                alloc,
                &[(n % 4_294_967_296) as u32, (n / 4_294_967_296) as u32],
            )
        }
    }
}

/// A two-sided operator on two numbers of a scalar.
pub fn combine(operator: BinaryOperator, s: Scalar, a: u64, b: u64) -> u64
    requires left { a < 2 ^ width_of s }
    requires right { b < 2 ^ width_of s }
    ensures value { result ≡ combined operator s a b }
    ensures fits { result < 2 ^ width_of s }
{
    let signed = is_signed_scalar(s);
    match s {
        Scalar::Bool | Scalar::Int | Scalar::Uint => {
            u64::from(combine_32(operator, signed, a as u32, b as u32))
        }
        Scalar::Int16 | Scalar::Uint16 => {
            u64::from(combine_16(operator, signed, a as u16, b as u16))
        }
        Scalar::Int64 | Scalar::Uint64 => combine_64(operator, signed, a, b),
    }
}

fn is_truth(operator: BinaryOperator) -> bool
    ensures { result ≡ gives_truth operator }
{
    matches!(
        operator,
        BinaryOperator::Less
            | BinaryOperator::Greater
            | BinaryOperator::AtMost
            | BinaryOperator::AtLeast
            | BinaryOperator::Equal
            | BinaryOperator::NotEqual
            | BinaryOperator::And
            | BinaryOperator::Or
    )
}

/// The number of the right value of an operator; the count of a shift may have more words, of which the low one counts.
fn right_number(s: Scalar, words: &[Word]) -> Result<u64, AllocError>
    ensures { IfOk result (λ n. (take 1 (numbers_in s words.now) ≡ n ∷ []) × (n < 2 ^ width_of s)) }
{
    match s {
        Scalar::Bool | Scalar::Int | Scalar::Uint => {
            let word = first_word(words)?;
            Ok(u64::from(word))
        }
        Scalar::Int16 | Scalar::Uint16 => {
            let word = first_word(words)?;
            Ok(u64::from(word % 65_536))
        }
        Scalar::Int64 | Scalar::Uint64 => Ok(long(words)),
    }
}

/// A two-sided operator on two values of a scalar.
#[tactic(auto, using(crate::proofs::OneNumber::combined_truth, crate::proofs::OneNumber::combined_number))]
pub fn combine_wide(
    alloc: Global,
    operator: BinaryOperator,
    s: Scalar,
    a: &[Word],
    b: &[Word],
) -> Result<Words, AllocError>
    ensures { IfOk result (λ list. list ≡ words_for (result_scalar operator s) (pairwise (combined operator s) (numbers_in s a.now) (numbers_in s b.now))) }
{
    let left = number(s, a)?;
    let right = right_number(s, b)?;
    let n = combine(operator, s, left, right);
    if is_truth(operator) {
        Words::from_slice(alloc, &[truth_word(n != 0)])
    } else {
        words_of(alloc, s, n)
    }
}

fn prefix_number(operator: PrefixOperator, s: Scalar, a: u64) -> u64
    requires fits { a < 2 ^ width_of s }
    ensures value { result ≡ prefixed operator s a }
    ensures fits { result < 2 ^ width_of s }
{
    match s {
        Scalar::Bool | Scalar::Int | Scalar::Uint => u64::from(prefix_32(operator, a as u32)),
        Scalar::Int16 | Scalar::Uint16 => u64::from(prefix_16(operator, a as u16)),
        Scalar::Int64 | Scalar::Uint64 => prefix_64(operator, a),
    }
}

/// An operator before a value of a scalar.
#[tactic(auto, using(crate::proofs::OneNumber::made_of_one))]
pub fn prefix_wide(
    alloc: Global,
    operator: PrefixOperator,
    s: Scalar,
    a: &[Word],
) -> Result<Words, AllocError>
    ensures { IfOk result (λ list. list ≡ words_for s (map (prefixed operator s) (numbers_in s a.now))) }
{
    let n = number(s, a)?;
    words_of(alloc, s, prefix_number(operator, s, n))
}

#[tactic(auto, using(crate::proofs::OneNumber::one_fits, crate::proofs::OneNumber::held_wide))]
fn step_number(operator: StepOperator, s: Scalar, a: u64) -> u64
    requires wide { is_wide s ≡ true }
    requires fits { a < 2 ^ width_of s }
    ensures value { result ≡ stepped operator s a }
    ensures fits { result < 2 ^ width_of s }
{
    match operator {
        StepOperator::Increment => combine(BinaryOperator::Add, s, a, 1),
        StepOperator::Decrement => combine(BinaryOperator::Subtract, s, a, 1),
    }
}

/// `++` or `--` of a value of a scalar.
#[tactic(auto, using(crate::proofs::OneNumber::made_of_one))]
pub fn step_wide(
    alloc: Global,
    operator: StepOperator,
    s: Scalar,
    a: &[Word],
) -> Result<Words, AllocError>
    requires wide { is_wide s ≡ true }
    ensures { IfOk result (λ list. list ≡ words_for s (map (stepped operator s) (numbers_in s a.now))) }
{
    let n = number(s, a)?;
    words_of(alloc, s, step_number(operator, s, n))
}

fn less(s: Scalar, a: u64, b: u64) -> bool
    requires left { a < 2 ^ width_of s }
    requires right { b < 2 ^ width_of s }
    ensures { result ≡ is_less s a b }
{
    combine(BinaryOperator::Less, s, a, b) != 0
}

fn lesser(s: Scalar, a: u64, b: u64) -> u64
    requires left { a < 2 ^ width_of s }
    requires right { b < 2 ^ width_of s }
    ensures value { result ≡ least s a b }
    ensures fits { result < 2 ^ width_of s }
{
    if less(s, b, a) { b } else { a }
}

fn greater(s: Scalar, a: u64, b: u64) -> u64
    requires left { a < 2 ^ width_of s }
    requires right { b < 2 ^ width_of s }
    ensures value { result ≡ greatest s a b }
    ensures fits { result < 2 ^ width_of s }
{
    if less(s, a, b) { b } else { a }
}

#[tactic(auto, using(crate::proofs::OneNumber::one_fits))]
fn magnitude(s: Scalar, a: u64) -> u64
    requires fits { a < 2 ^ width_of s }
    ensures value { result ≡ absolute s a }
    ensures fits { result < 2 ^ width_of s }
{
    if less(s, a, 0) {
        combine(BinaryOperator::Subtract, s, 0, a)
    } else {
        a
    }
}

/// The number of an argument by its place.
#[tactic(auto, using(crate::proofs::OneNumber::argument_is))]
fn argument_number(s: Scalar, arguments: &WordLists, at: usize) -> Result<u64, AllocError>
    ensures { IfOk result (λ n. (argument (map (numbers_in s) arguments.now) at ≡ n ∷ []) × (n < 2 ^ width_of s)) }
{
    match arguments.get(at) {
        Some(words) => number(s, words.as_slice()),
        None => Err(AllocError),
    }
}

#[tactic(auto, using(crate::proofs::OneNumber::pair_is))]
fn lesser_of(s: Scalar, arguments: &WordLists) -> Result<u64, AllocError>
    ensures { IfOk result (λ n. (called_with intrinsic.Min s (map (numbers_in s) arguments.now) ≡ n ∷ []) × (n < 2 ^ width_of s)) }
{
    let a = argument_number(s, arguments, 0)?;
    let b = argument_number(s, arguments, 1)?;
    Ok(lesser(s, a, b))
}

#[tactic(auto, using(crate::proofs::OneNumber::pair_is))]
fn greater_of(s: Scalar, arguments: &WordLists) -> Result<u64, AllocError>
    ensures { IfOk result (λ n. (called_with intrinsic.Max s (map (numbers_in s) arguments.now) ≡ n ∷ []) × (n < 2 ^ width_of s)) }
{
    let a = argument_number(s, arguments, 0)?;
    let b = argument_number(s, arguments, 1)?;
    Ok(greater(s, a, b))
}

#[tactic(auto, using(crate::proofs::OneNumber::pairs_are))]
fn clamped(s: Scalar, arguments: &WordLists) -> Result<u64, AllocError>
    ensures { IfOk result (λ n. (called_with intrinsic.Clamp s (map (numbers_in s) arguments.now) ≡ n ∷ []) × (n < 2 ^ width_of s)) }
{
    let a = argument_number(s, arguments, 0)?;
    let low = argument_number(s, arguments, 1)?;
    let high = argument_number(s, arguments, 2)?;
    Ok(lesser(s, greater(s, a, low), high))
}

#[tactic(auto, using(crate::proofs::OneNumber::pairs_are))]
fn multiplied_and_added(s: Scalar, arguments: &WordLists) -> Result<u64, AllocError>
    ensures { IfOk result (λ n. (called_with intrinsic.MultiplyAdd s (map (numbers_in s) arguments.now) ≡ n ∷ []) × (n < 2 ^ width_of s)) }
{
    let a = argument_number(s, arguments, 0)?;
    let b = argument_number(s, arguments, 1)?;
    let c = argument_number(s, arguments, 2)?;
    let product = combine(BinaryOperator::Multiply, s, a, b);
    Ok(combine(BinaryOperator::Add, s, product, c))
}

#[tactic(auto, using(crate::proofs::OneNumber::single_is))]
fn magnitude_of(s: Scalar, arguments: &WordLists) -> Result<u64, AllocError>
    ensures { IfOk result (λ n. (called_with intrinsic.Abs s (map (numbers_in s) arguments.now) ≡ n ∷ []) × (n < 2 ^ width_of s)) }
{
    let a = argument_number(s, arguments, 0)?;
    Ok(magnitude(s, a))
}

/// The word of a truth that is the first argument.
fn test_word(arguments: &WordLists) -> Result<Word, AllocError>
    ensures { IfOk result (λ w. slice_get arguments.now 0 ≡ Some (w ∷ [])) }
{
    match arguments.get(0) {
        Some(words) => only_word(words.as_slice()),
        None => Err(AllocError),
    }
}

#[tactic(auto, using(crate::proofs::OneNumber::selected_is))]
fn selected_of(s: Scalar, arguments: &WordLists) -> Result<u64, AllocError>
    ensures { IfOk result (λ n. (called_with intrinsic.Select s (argument_numbers intrinsic.Select s arguments.now) ≡ n ∷ []) × (n < 2 ^ width_of s)) }
{
    let test = test_word(arguments)?;
    let a = argument_number(s, arguments, 1)?;
    let b = argument_number(s, arguments, 2)?;
    Ok(if test != 0 { a } else { b })
}

/// What a call makes of wide numbers. Typing writes the other calls on words of 32 bits alone: on wide numbers they count
/// as having no room in memory.
fn call_number(call: Intrinsic, s: Scalar, arguments: &WordLists) -> Result<u64, AllocError>
    ensures { IfOk result (λ n. (called_with call s (argument_numbers call s arguments.now) ≡ n ∷ []) × (n < 2 ^ width_of s)) }
{
    match call {
        Intrinsic::Min => lesser_of(s, arguments),
        Intrinsic::Max => greater_of(s, arguments),
        Intrinsic::Clamp => clamped(s, arguments),
        Intrinsic::MultiplyAdd => multiplied_and_added(s, arguments),
        Intrinsic::Abs => magnitude_of(s, arguments),
        Intrinsic::Select => selected_of(s, arguments),
        Intrinsic::CountBits
        | Intrinsic::FirstBitHigh
        | Intrinsic::FirstBitLow
        | Intrinsic::ReverseBits
        | Intrinsic::Any
        | Intrinsic::All
        | Intrinsic::And
        | Intrinsic::Or => Err(AllocError),
    }
}

/// What a call makes of its arguments, which are of a wide scalar.
pub fn wide_call(
    alloc: Global,
    call: Intrinsic,
    s: Scalar,
    arguments: &WordLists,
) -> Result<Words, AllocError>
    ensures { IfOk result (λ list. list ≡ words_for s (called_with call s (argument_numbers call s arguments.now))) }
{
    let n = call_number(call, s, arguments)?;
    words_of(alloc, s, n)
}
