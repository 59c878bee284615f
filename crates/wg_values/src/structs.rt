ghost use Rattle.std.specs.Prelude.{◌≡◌, [], IfOk, map, slice_get, unwrap_or};
ghost use Rattle.wg_typed.specs.Layout.{extents_of, extents_after, field_range, ranges_after, nowhere, words_of};
ghost use Rattle.wg_typed.specs.Marks.{marks_after, marks_in, cleaned};
ghost use Rattle.wg_typed.specs.declared.typed.TypedField.{TypedField as Field};
ghost use Rattle.wg_values.specs.Pieces.{range_of};

use crate::extents::{Piece, next_piece, of_fields, of_type};
use crate::marks::{Marks, clean, marks_of_fields, marks_of_type};
use std::alloc::{AllocError, Global};
use std::marker::Model;
use wg_typed::{Extent, TypeTree, TypedField, TypedStruct};
use wg_words::{Items, Word, Words};

/// The structs of a text, with what each takes and what its words are.
#[derive(Drop)]
pub struct Structs<'a> {
    structs: &'a sqlite_items::Items<TypedStruct>,
    extents: Items<Extent>,
    marks: Items<Marks>,
}

impl<'a> Model for Structs<'a> {
    ghost use Rattle.std.specs.Prelude.{List, [], ◌≡◌};
    ghost use Rattle.wg_typed.specs.declared.typed.TypedStruct.{TypedStruct as Given};
    ghost use Rattle.wg_typed.specs.Layout.{extents_of};
    ghost use Rattle.wg_typed.specs.Marks.{marks_after};

    ghost Value = { List Given };

    ghost view = { λ s. s.structs.now };

    ghost invariant = { λ s. (s.extents ≡ extents_of s.structs.now) × (s.marks ≡ marks_after (extents_of s.structs.now) [] s.structs.now) };
}

/// What each struct takes.
fn extents(alloc: Global, structs: &[TypedStruct]) -> Result<Items<Extent>, AllocError>
    ensures { IfOk result (λ list. list ≡ extents_of structs.now) }
{
    let mut list = Items::new(alloc);
    for s in structs {
        let extent = of_fields(list.as_slice(), s.fields.as_slice())?;
        list.push(extent)?;
    }
    Ok(list)
}

/// What the words of each struct are.
fn all_marks(
    alloc: Global,
    extents: &[Extent],
    structs: &[TypedStruct],
) -> Result<Items<Marks>, AllocError>
    ensures { IfOk result (λ list. list ≡ marks_after extents.now [] structs.now) }
{
    let mut list = Items::new(alloc);
    for s in structs {
        let marks = marks_of_fields(alloc, extents, list.as_slice(), s.fields.as_slice())?;
        list.push(marks)?;
    }
    Ok(list)
}

impl<'a> Structs<'a> {
    pub fn new(
        alloc: Global,
        structs: &'a sqlite_items::Items<TypedStruct>,
    ) -> Result<Structs<'a>, AllocError>
        ensures { IfOk result (λ s. s ≡ structs.now) }
    {
        let extents = extents(alloc, structs.as_slice())?;
        let marks = all_marks(alloc, extents.as_slice(), structs.as_slice())?;
        Ok(Structs {
            structs,
            extents,
            marks,
        })
    }

    pub fn as_slice(&self) -> &[TypedStruct]
        ensures { result.now ≡ self.now }
    {
        self.structs.as_slice()
    }

    /// How many words a value of a type has. One of more words than 32 bits can count has no room in memory.
    pub fn words(&self, t: TypeTree) -> Result<u64, AllocError>
        ensures { IfOk result (λ n. n ≡ words_of self.now t) }
    {
        let extent = of_type(self.extents.as_slice(), t)?;
        Ok(u64::from(extent.words))
    }

    /// The words of a value of a type as they are read from a buffer or from a record of the input.
    pub fn read(&self, alloc: Global, t: TypeTree, words: &[Word]) -> Result<Words, AllocError>
        ensures { IfOk result (λ list. list ≡ cleaned (marks_in self.now t) words.now) }
    {
        let marks = marks_of_type(alloc, self.extents.as_slice(), self.marks.as_slice(), t)?;
        clean(alloc, marks.as_slice(), words)
    }

    /// Where one of the fields of a struct stands in its words.
    fn piece(&self, fields: &[TypedField], wanted: u32) -> Result<Piece, AllocError>
        ensures { IfOk result (λ p. range_of p ≡ unwrap_or (slice_get (ranges_after (extents_of self.now) 0 (map (λ (f : Field). f.of) fields.now)) wanted) nowhere) }
    {
        let mut at = 0;
        let mut left = wanted;
        for field in fields {
            let piece = next_piece(self.extents.as_slice(), at, field.of)?;
            if left == 0 {
                return Ok(piece);
            }
            left -= 1;
            at = piece.to;
        }
        Ok(Piece { from: 0, to: 0 })
    }
}

/// Where a field stands in the words of its struct.
pub fn field_piece(structs: &Structs<'_>, t: TypeTree, field: u32) -> Result<Piece, AllocError>
    ensures { IfOk result (λ p. range_of p ≡ field_range structs.now t field) }
{
    match t {
        TypeTree::Struct { number } => match structs.as_slice().get(number as usize) {
            Some(s) => structs.piece(s.fields.as_slice(), field),
            None => Ok(Piece { from: 0, to: 0 }),
        },
        TypeTree::Scalar { .. } | TypeTree::Vector { .. } | TypeTree::Array { .. } => Ok(Piece {
            from: 0,
            to: 0,
        }),
    }
}
