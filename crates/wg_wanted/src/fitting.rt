ghost use Rattle.std.specs.Prelude.{◌≡◌, IfOk, OnOk};
ghost use Rattle.wg_typing.specs.Layers as l;
ghost use Rattle.wg_typing.specs.PartSites as s;
ghost use Rattle.wg_notes.specs.Notes.{noted};

use sqlite_items::Boxed;
use std::alloc::Global;
use wg_conversions::fits;
use wg_notes::{Maybe, Noted, Notes, convert, typed_part};
use wg_typed::{TypeTree, TypedExpr};
use wg_typing::{Part, Value};
use wg_words::Items;

/// Whether it is a value that has a type.
pub fn is_typed(part: &Part) -> bool
    ensures { result ≡ s.is_typed part.now }
{
    match &part.value {
        Some(Value::Typed { .. }) => true,
        Some(Value::Object { .. } | Value::Act { .. } | Value::Text { .. }) | None => false,
    }
}

/// Whether all of them have types.
pub fn all_are_typed(parts: &[Part]) -> bool
    ensures { result ≡ s.all_are_typed parts.now }
{
    for part in parts {
        if !is_typed(part) {
            return false;
        }
    }
    true
}

/// What is noted of a part that has to convert to a type.
pub fn goal(notes: &mut Notes, wanted: TypeTree, part: &Part) -> Noted
    ensures { OnOk result (notes.new.list ≡ noted (s.goal_site wanted part.now) notes.old.list) }
{
    match &part.value {
        Some(Value::Typed { of, .. }) => notes.fault_if(!fits(*of, wanted), 303, part.place),
        Some(Value::Object { .. } | Value::Act { .. } | Value::Text { .. }) | None => Ok(()),
    }
}

/// What is noted of parts, of which each has to convert to a type.
pub fn goals(notes: &mut Notes, types: &[TypeTree], parts: &[Part]) -> Noted
    ensures { OnOk result (notes.new.list ≡ noted (s.goal_sites types.now parts.now) notes.old.list) }
{
    let mut types = types;
    for part in parts {
        let Some((first, rest)) = types.split_first() else {
            return Ok(());
        };
        goal(notes, *first, part)?;
        types = rest;
    }
    Ok(())
}

/// A part in the type that is wanted of it.
pub fn fit(alloc: Global, wanted: TypeTree, part: Part) -> Maybe<Boxed<TypedExpr>>
    ensures { IfOk result (λ r. r ≡ l.fit wanted part) }
{
    let t = given!(typed_part(part));
    convert(alloc, wanted, t)
}

/// Parts in the types that are wanted of them, one of each.
#[tactic(auto, using(crate::proofs::After::after_more, crate::proofs::After::after_end, crate::proofs::After::fit_short, crate::proofs::After::fit_long))]
pub fn fit_all(alloc: Global, types: &[TypeTree], parts: Items<Part>) -> Maybe<Items<TypedExpr>>
    ensures { IfOk result (λ r. r ≡ l.fit_all types.now parts) }
{
    let mut done = Items::new(alloc);
    let mut types = types;
    for part in parts.into_vec() {
        let Some((first, rest)) = types.split_first() else {
            return Ok(None);
        };
        let tree = given!(fit(alloc, *first, part)?);
        done.push(tree.into_inner())?;
        types = rest;
    }
    match types.split_first() {
        Some(_) => Ok(None),
        None => Ok(Some(done)),
    }
}
