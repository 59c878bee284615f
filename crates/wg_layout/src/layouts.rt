ghost use Rattle.std.specs.Prelude.{◌≡◌, ◌≤◌, map, IfOk};
ghost use Rattle.wg_words.specs.declared.limits.TheConstants.{MOST_TYPE_WORDS};
ghost use Rattle.wg_typed.specs.Layout.{words_of, AreInOrder, field_ranges, extents_of, types_of, end_after, ranges_after};
ghost use Rattle.wg_layout.specs.Layouts.{IsLayout, range_of};
ghost use Rattle.wg_layout.specs.Sizes.{table_of};

use crate::parts::{FieldRange, FieldRanges, Layout};
use crate::sizes::{Sizes, round_up};
use sqlite_items::Items as List;
use std::alloc::{AllocError, Global};
use wg_typed::{TypeTree, TypedField, TypedStruct};

/// The layout of a type of a text with these structs, whose sizes are in the table. Its time is that of the struct's fields.
pub fn layout(
    alloc: Global,
    structs: &List<TypedStruct>,
    sizes: &Sizes,
    of: &TypeTree,
) -> Result<Layout, AllocError>
    requires table { sizes.now ≡ table_of structs.now }
    requires order { AreInOrder structs.now }
    requires within { words_of structs.now of.now ≤ MOST_TYPE_WORDS }
    ensures { IfOk result (λ l. IsLayout structs.now of.now l) }
{
    let words = sizes.words(of);
    let fields = fields(alloc, structs, sizes, of)?;
    Ok(Layout {
        words,
        stride: (4 * words).max(4),
        fields,
    })
}

/// The ranges of a struct's fields; none of another type.
fn fields(
    alloc: Global,
    structs: &List<TypedStruct>,
    sizes: &Sizes,
    of: &TypeTree,
) -> Result<FieldRanges, AllocError>
    requires table { sizes.now ≡ table_of structs.now }
    requires order { AreInOrder structs.now }
    requires within { words_of structs.now of.now ≤ MOST_TYPE_WORDS }
    ensures { IfOk result (λ fields. fields ≡ map range_of (field_ranges structs.now of.now)) }
{
    let TypeTree::Struct { number } = *of else {
        return Ok(FieldRanges::new(alloc));
    };
    match structs.get(number as usize) {
        Some(of) => ranges(alloc, structs, sizes, &of.fields),
        None => Ok(FieldRanges::new(alloc)),
    }
}

fn ranges(
    alloc: Global,
    structs: &List<TypedStruct>,
    sizes: &Sizes,
    fields: &List<TypedField>,
) -> Result<FieldRanges, AllocError>
    requires table { sizes.now ≡ table_of structs.now }
    requires within { end_after (extents_of structs.now) 0 (types_of fields.now) ≤ MOST_TYPE_WORDS }
    ensures { IfOk result (λ ranges. ranges ≡ map range_of (ranges_after (extents_of structs.now) 0 (types_of fields.now))) }
{
    let mut ranges = FieldRanges::new(alloc);
    let mut at = 0;
    for field in fields.as_slice() {
        let of = sizes.extent(&field.of);
        let from = round_up(of.even, at);
        let to = from + of.words;
        ranges.push(FieldRange { from, to })?;
        at = to;
    }
    Ok(ranges)
}

#[cfg(test)]
mod tests;
