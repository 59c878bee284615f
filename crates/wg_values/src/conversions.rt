ghost use Rattle.std.specs.Prelude.{◌≡◌, IfOk, false, map, replicate};
ghost use Rattle.wg_typed.specs.Operators.{is_wide, numbers_in, words_for, converted, converted_number, converted_numbers, filled};

use crate::operators::{hold, scalar};
use crate::wide::{is_of_wide, number, words_of};
use crate::words::word_at;
use std::alloc::{AllocError, Global};
use wg_tree::Scalar;
use wg_typed::{TypeTree, convert_number};
use wg_words::{Word, Words};

#[tactic(auto, using(crate::proofs::OneNumber::made_of_one, crate::proofs::OneNumber::converted_fits))]
fn convert_wide(
    alloc: Global,
    from: Scalar,
    to: Scalar,
    words: &[Word],
) -> Result<Words, AllocError>
    ensures { IfOk result (λ list. list ≡ words_for to (map (converted_number from to) (numbers_in from words.now))) }
{
    let n = number(from, words)?;
    words_of(alloc, to, convert_number(from, to, n))
}

#[tactic(auto, using(crate::proofs::OneNumber::converted_narrow))]
fn convert_word(from: Scalar, to: Scalar, word: Word) -> Word
    requires from { is_wide from ≡ false }
    requires to { is_wide to ≡ false }
    ensures { result ≡ converted_number from to word }
{
    hold(to, word)
}

fn convert_words(
    alloc: Global,
    from: Scalar,
    to: Scalar,
    words: &[Word],
) -> Result<Words, AllocError>
    requires from { is_wide from ≡ false }
    requires to { is_wide to ≡ false }
    ensures { IfOk result (λ list. list ≡ map (converted_number from to) words.now) }
{
    let mut list = Words::new(alloc);
    for x in words {
        list.push(convert_word(from, to, *x))?;
    }
    Ok(list)
}

fn repeat(alloc: Global, word: Word, count: u32) -> Result<Words, AllocError>
    ensures { IfOk result (λ list. list ≡ replicate count word) }
{
    let mut list = Words::new(alloc);
    for _i in 0..count {
        list.push(word)?;
    }
    Ok(list)
}

/// A scalar fills a vector.
fn fill(alloc: Global, from: TypeTree, size: u32, numbers: Words) -> Result<Words, AllocError>
    ensures { IfOk result (λ list. list ≡ filled from size numbers) }
{
    match from {
        TypeTree::Scalar { .. } => repeat(alloc, word_at(numbers.as_slice(), 0), size),
        TypeTree::Vector { .. } | TypeTree::Struct { .. } | TypeTree::Array { .. } => Ok(numbers),
    }
}

#[tactic(auto, using(crate::proofs::OneNumber::converted_words_narrow))]
fn convert_scalar(
    alloc: Global,
    from: TypeTree,
    to: Scalar,
    words: &[Word],
) -> Result<Words, AllocError>
    ensures { IfOk result (λ list. list ≡ words_for to (converted_numbers from to words.now)) }
{
    let s = scalar(from);
    if is_of_wide(s) || is_of_wide(to) {
        convert_wide(alloc, s, to, words)
    } else {
        convert_words(alloc, s, to, words)
    }
}

/// There are no vectors of wide scalars: one counts as having no room in memory.
#[tactic(auto, using(crate::proofs::OneNumber::filled_narrow))]
fn convert_vector(
    alloc: Global,
    from: TypeTree,
    to: Scalar,
    size: u32,
    words: &[Word],
) -> Result<Words, AllocError>
    ensures { IfOk result (λ list. list ≡ words_for to (filled from size (converted_numbers from to words.now))) }
{
    let s = scalar(from);
    if is_of_wide(s) || is_of_wide(to) {
        return Err(AllocError);
    }
    let numbers = convert_words(alloc, s, to, words)?;
    fill(alloc, from, size, numbers)
}

/// A value of a type as one of another.
pub fn convert(
    alloc: Global,
    from: TypeTree,
    to: TypeTree,
    words: &[Word],
) -> Result<Words, AllocError>
    ensures { IfOk result (λ list. list ≡ converted from to words.now) }
{
    match to {
        TypeTree::Scalar { of } => convert_scalar(alloc, from, of, words),
        TypeTree::Vector { of, size } => convert_vector(alloc, from, of, size, words),
        TypeTree::Struct { .. } | TypeTree::Array { .. } => Words::from_slice(alloc, words),
    }
}
