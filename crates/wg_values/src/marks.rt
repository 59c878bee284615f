ghost use Rattle.std.specs.Prelude.{◌≡◌, ◌++◌, [], IfOk, OnOk, length, map, replicate};
ghost use Rattle.wg_typed.specs.declared.typed.TypedField.{TypedField as Field};
ghost use Rattle.wg_typed.specs.Layout.{begins, type_extent};
ghost use Rattle.wg_typed.specs.Operators.{extended};
ghost use Rattle.wg_typed.specs.Marks.{scalar_mark, struct_marks, element_marks, repeated, type_marks, filled_up, marks_behind, fields_marks, cleaned_word, cleaned};
ghost use Rattle.wg_values.specs.Pieces.{mark_at};

use crate::extents::{of_fields, of_scalar, of_type, round};
use crate::operators::truth_word;
use std::alloc::{AllocError, Global};
use wg_tree::Scalar;
use wg_typed::{ElementType, Extent, TypeTree, TypedField, WordMark};
use wg_words::{Items, Word, Words};

/// What each word of a type is.
pub type Marks = Items<WordMark>;

fn mark_of(s: Scalar) -> WordMark
    ensures { result ≡ scalar_mark s }
{
    match s {
        Scalar::Bool => WordMark::Truth,
        Scalar::Int16 => WordMark::Signed16,
        Scalar::Uint16 => WordMark::Unsigned16,
        Scalar::Int | Scalar::Uint | Scalar::Int64 | Scalar::Uint64 => WordMark::Plain,
    }
}

fn repeat(alloc: Global, mark: WordMark, count: u64) -> Result<Marks, AllocError>
    ensures { IfOk result (λ list. list ≡ replicate count mark) }
{
    let mut list = Marks::new(alloc);
    for _i in 0..count {
        list.push(mark)?;
    }
    Ok(list)
}

fn push_all(list: &mut Marks, more: &[WordMark]) -> Result<(), AllocError>
    ensures { OnOk result (list.new ≡ list.old ++ more.now) }
{
    for mark in more {
        list.push(*mark)?;
    }
    Ok(())
}

#[tactic(auto, using(crate::proofs::MarkLoops::repeated_last))]
fn repeat_all(alloc: Global, marks: &[WordMark], count: u32) -> Result<Marks, AllocError>
    ensures { IfOk result (λ list. list ≡ repeated count marks.now) }
{
    let mut list = Marks::new(alloc);
    for _i in 0..count {
        push_all(&mut list, marks)?;
    }
    Ok(list)
}

fn of_struct(alloc: Global, known: &[Marks], number: u32) -> Result<Marks, AllocError>
    ensures { IfOk result (λ list. list ≡ struct_marks known.now number) }
{
    match known.get(number as usize) {
        Some(marks) => Marks::from_slice(alloc, marks.as_slice()),
        None => Ok(Marks::new(alloc)),
    }
}

fn of_element(
    alloc: Global,
    extents: &[Extent],
    known: &[Marks],
    of: ElementType,
) -> Result<Marks, AllocError>
    ensures { IfOk result (λ list. list ≡ element_marks extents.now known.now of) }
{
    match of {
        ElementType::Scalar { of } => repeat(alloc, mark_of(of), u64::from(of_scalar(of).words)),
        ElementType::Vector { of, size } => repeat(alloc, mark_of(of), u64::from(size)),
        ElementType::Struct { number } => of_struct(alloc, known, number),
    }
}

/// The marks of a type, where the structs have these.
pub fn marks_of_type(
    alloc: Global,
    extents: &[Extent],
    known: &[Marks],
    t: TypeTree,
) -> Result<Marks, AllocError>
    ensures { IfOk result (λ list. list ≡ type_marks extents.now known.now t) }
{
    match t {
        TypeTree::Scalar { of } => repeat(alloc, mark_of(of), u64::from(of_scalar(of).words)),
        TypeTree::Vector { of, size } => repeat(alloc, mark_of(of), u64::from(size)),
        TypeTree::Struct { number } => of_struct(alloc, known, number),
        TypeTree::Array { of, size } => {
            let marks = of_element(alloc, extents, known, of)?;
            repeat_all(alloc, marks.as_slice(), size)
        }
    }
}

/// Marks words between two parts, up to so many words in all.
fn fill_up(alloc: Global, size: u64, list: &mut Marks) -> Result<(), AllocError>
    ensures { OnOk result (list.new ≡ filled_up size list.old) }
{
    let missing = size.saturating_sub(list.len() as u64);
    let between = repeat(alloc, WordMark::Between, missing)?;
    push_all(list, between.as_slice())
}

fn push_part(
    alloc: Global,
    extents: &[Extent],
    known: &[Marks],
    t: TypeTree,
    list: &mut Marks,
) -> Result<(), AllocError>
    ensures { OnOk result (list.new ≡ filled_up (begins (type_extent extents.now t) (length list.old)) list.old ++ type_marks extents.now known.now t) }
{
    let extent = of_type(extents, t)?;
    let from = round(extent.even, list.len() as u64)?;
    fill_up(alloc, from, list)?;
    let marks = marks_of_type(alloc, extents, known, t)?;
    push_all(list, marks.as_slice())
}

fn push_parts(
    alloc: Global,
    extents: &[Extent],
    known: &[Marks],
    fields: &[TypedField],
) -> Result<Marks, AllocError>
    ensures { IfOk result (λ list. list ≡ marks_behind extents.now known.now [] (map (λ (f : Field). f.of) fields.now)) }
{
    let mut list = Marks::new(alloc);
    for field in fields {
        push_part(alloc, extents, known, field.of, &mut list)?;
    }
    Ok(list)
}

/// The marks of a struct with these fields.
pub fn marks_of_fields(
    alloc: Global,
    extents: &[Extent],
    known: &[Marks],
    fields: &[TypedField],
) -> Result<Marks, AllocError>
    ensures { IfOk result (λ list. list ≡ fields_marks extents.now known.now (map (λ (f : Field). f.of) fields.now)) }
{
    let mut list = push_parts(alloc, extents, known, fields)?;
    let extent = of_fields(extents, fields)?;
    fill_up(alloc, u64::from(extent.words), &mut list)?;
    Ok(list)
}

/// The word that holds a signed number of 16 bits.
#[tactic(auto, using(crate::proofs::OneNumber::extended_is))]
pub fn extend(n: u16) -> Word
    ensures { result ≡ extended n }
{
    let word = u32::from(n);
    if n < 0x8000 { word } else { word + 0xffff_0000 }
}

fn clean_word(mark: WordMark, word: Word) -> Word
    ensures { result ≡ cleaned_word mark word }
{
    match mark {
        WordMark::Plain => word,
        WordMark::Truth => truth_word(word != 0),
        WordMark::Signed16 => extend((word % 65_536) as u16),
        WordMark::Unsigned16 => word % 65_536,
        WordMark::Between => 0,
    }
}

fn mark_behind(marks: &[WordMark], at: usize) -> WordMark
    ensures { result ≡ mark_at marks.now at }
{
    match marks.get(at) {
        Some(mark) => *mark,
        None => WordMark::Plain,
    }
}

/// The words of a value as they are read.
pub fn clean(alloc: Global, marks: &[WordMark], words: &[Word]) -> Result<Words, AllocError>
    ensures { IfOk result (λ list. list ≡ cleaned marks.now words.now) }
{
    let mut list = Words::new(alloc);
    for at in 0..words.len() {
        list.push(clean_word(mark_behind(marks, at), words[at]))?;
    }
    Ok(list)
}
