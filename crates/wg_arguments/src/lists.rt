ghost use Rattle.std.specs.Prelude.{◌≡◌, IfOk};
ghost use Rattle.wg_typing.specs.Maybe.{all_of};
ghost use Rattle.wg_typing.specs.TypingIntrinsic as t;

use std::alloc::Global;
use wg_conversions::{numbers, type_of};
use wg_notes::{Maybe, convert, more};
use wg_typed::TypedExpr;
use wg_typing::{Numbers, TypedPart};
use wg_words::Items;

/// What the types are made of, where all are of numbers.
#[tactic(auto, using(crate::proofs::Gathered::numbers_gathered))]
pub fn numbers_all(alloc: Global, ts: &[TypedPart]) -> Maybe<Items<Numbers>>
    ensures { IfOk result (λ r. r ≡ t.all_numbers ts.now) }
{
    let mut done = Some(Items::new(alloc));
    for t in ts {
        done = more(done, numbers(t.of))?;
    }
    Ok(done)
}

/// Parts in the types that are wanted of them, one of each.
#[tactic(auto, using(crate::proofs::Gathered::converted_all, crate::proofs::Gathered::converted_past, crate::proofs::Gathered::converted_done))]
pub fn convert_all(
    alloc: Global,
    types: &[Numbers],
    ts: Items<TypedPart>,
) -> Maybe<Items<TypedExpr>>
    ensures { IfOk result (λ r. r ≡ t.convert_all types.now ts) }
{
    let mut done = Some(Items::new(alloc));
    let mut types = types;
    for t in ts.into_vec() {
        let Some((first, rest)) = types.split_first() else {
            return Ok(None);
        };
        let tree = convert(alloc, type_of(*first), t)?;
        done = more(done, tree.map(|tree| tree.into_inner()))?;
        types = rest;
    }
    match types.split_first() {
        Some(_) => Ok(None),
        None => Ok(done),
    }
}

/// Parts of which all have types.
#[tactic(auto, using(crate::proofs::Gathered::typed_gathered))]
pub fn all_typed(alloc: Global, parts: Items<Option<TypedPart>>) -> Maybe<Items<TypedPart>>
    ensures { IfOk result (λ r. r ≡ all_of parts) }
{
    let mut done = Some(Items::new(alloc));
    for part in parts.into_vec() {
        done = more(done, part)?;
    }
    Ok(done)
}
