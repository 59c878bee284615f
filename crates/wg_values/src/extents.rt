ghost use Rattle.std.specs.Prelude.{◌≡◌, IfOk, map};
ghost use Rattle.wg_typed.specs.declared.typed.TypedField.{TypedField as Field};
ghost use Rattle.wg_typed.specs.Layout.{rounded, scalar_extent, struct_extent, element_extent, repeated_extent, type_extent, range_at, end_after, has_even, fields_extent};
ghost use Rattle.wg_values.specs.Pieces.{range_of};

use std::alloc::AllocError;
use wg_tree::Scalar;
use wg_typed::{ElementType, Extent, TypeTree, TypedField};

/// Where a part of a value stands in its words.
#[derive(Clone, Copy, Debug, PartialEq, Eq)]
pub struct Piece {
    pub from: u64,
    pub to: u64,
}

/// The next even number of words, where that is wanted.
pub fn round(even: bool, words: u64) -> Result<u64, AllocError>
    ensures { IfOk result (λ n. n ≡ rounded even words) }
{
    if !even {
        return Ok(words);
    }
    match words.checked_add(words % 2) {
        Some(words) => Ok(words),
        None => Err(AllocError),
    }
}

pub fn of_scalar(s: Scalar) -> Extent
    ensures { result ≡ scalar_extent s }
{
    match s {
        Scalar::Bool | Scalar::Int | Scalar::Uint | Scalar::Int16 | Scalar::Uint16 => Extent {
            words: 1,
            even: false,
        },
        Scalar::Int64 | Scalar::Uint64 => Extent {
            words: 2,
            even: true,
        },
    }
}

fn of_struct(extents: &[Extent], number: u32) -> Extent
    ensures { result ≡ struct_extent extents.now number }
{
    match extents.get(number as usize) {
        Some(extent) => *extent,
        None => Extent {
            words: 0,
            even: false,
        },
    }
}

fn of_element(extents: &[Extent], of: ElementType) -> Extent
    ensures { result ≡ element_extent extents.now of }
{
    match of {
        ElementType::Scalar { of } => of_scalar(of),
        ElementType::Vector { size, .. } => Extent {
            words: size,
            even: false,
        },
        ElementType::Struct { number } => of_struct(extents, number),
    }
}

fn repeat(size: u32, of: Extent) -> Result<Extent, AllocError>
    ensures { IfOk result (λ x. x ≡ repeated_extent size of) }
{
    match size.checked_mul(of.words) {
        Some(words) => Ok(Extent {
            words,
            even: of.even,
        }),
        None => Err(AllocError),
    }
}

/// What a type takes, where the structs take these. One of more words than 32 bits can count has no room in memory.
pub fn of_type(extents: &[Extent], t: TypeTree) -> Result<Extent, AllocError>
    ensures { IfOk result (λ x. x ≡ type_extent extents.now t) }
{
    match t {
        TypeTree::Scalar { of } => Ok(of_scalar(of)),
        TypeTree::Vector { size, .. } => Ok(Extent {
            words: size,
            even: false,
        }),
        TypeTree::Struct { number } => Ok(of_struct(extents, number)),
        TypeTree::Array { of, size } => repeat(size, of_element(extents, of)),
    }
}

/// Where a part of the type stands after so many words.
pub fn next_piece(extents: &[Extent], at: u64, t: TypeTree) -> Result<Piece, AllocError>
    ensures { IfOk result (λ p. range_of p ≡ range_at extents.now at t) }
{
    let extent = of_type(extents, t)?;
    let from = round(extent.even, at)?;
    match from.checked_add(u64::from(extent.words)) {
        Some(to) => Ok(Piece { from, to }),
        None => Err(AllocError),
    }
}

/// Where the last of some fields ends.
fn end_of(extents: &[Extent], fields: &[TypedField]) -> Result<u64, AllocError>
    ensures { IfOk result (λ n. n ≡ end_after extents.now 0 (map (λ (f : Field). f.of) fields.now)) }
{
    let mut at = 0;
    for field in fields {
        let piece = next_piece(extents, at, field.of)?;
        at = piece.to;
    }
    Ok(at)
}

/// Whether one of the fields is even.
fn any_even(extents: &[Extent], fields: &[TypedField]) -> Result<bool, AllocError>
    ensures { IfOk result (λ b. b ≡ has_even extents.now (map (λ (f : Field). f.of) fields.now)) }
{
    for field in fields {
        let extent = of_type(extents, field.of)?;
        if extent.even {
            return Ok(true);
        }
    }
    Ok(false)
}

/// What a struct with these fields takes.
pub fn of_fields(extents: &[Extent], fields: &[TypedField]) -> Result<Extent, AllocError>
    ensures { IfOk result (λ x. x ≡ fields_extent extents.now (map (λ (f : Field). f.of) fields.now)) }
{
    let even = any_even(extents, fields)?;
    let end = end_of(extents, fields)?;
    let words = round(even, end)?;
    match u32::try_from(words) {
        Ok(words) => Ok(Extent { words, even }),
        Err(_) => Err(AllocError),
    }
}
