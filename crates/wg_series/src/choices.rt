ghost use Rattle.std.specs.Prelude.{◌≡◌, map, IfOk};
ghost use Rattle.wg_tree.specs.declared.expr.Expr.TheOpen.{Expr-F};
ghost use Rattle.wg_typing.specs.Layers as l;
ghost use Rattle.wg_typing.specs.PartSites as s;
ghost use Rattle.wg_typing.specs.TypingExpr.{layer_part};
ghost use Rattle.wg_notes.specs.Notes.{Gives};

use std::alloc::{AllocError, Global};
use wg_arguments::{all_typed, constructed as made};
use wg_layers::{Seen, plain};
use wg_notes::{Maybe, Notes, typed_part};
use wg_operators::choice;
use wg_scope::Context;
use wg_tree::ValueType;
use wg_typing::{Part, TypedPart};
use wg_words::{Items, Place};

/// `?:` of parts that are looked at as values.
#[tactic(auto, using(crate::proofs::ResultsFit::choice_is, crate::proofs::ResultsFit::sites_are))]
pub fn chosen(notes: &mut Notes, c: &Context, test: Part, then: Part, other: Part) -> Seen
    ensures { Gives (layer_part c.now (Expr-F.Choice test then other)) (s.choice_sites test.place test then other) result notes.old.list notes.new.list }
{
    let place = test.place;
    let value = choice(
        notes,
        place,
        typed_part(test),
        typed_part(then),
        typed_part(other),
    )?;
    plain(notes.alloc, place, value)
}

/// An expression in brackets.
pub fn bracketed(c: &Context, place: Place, inner: Part) -> Part
    ensures { result ≡ layer_part c.now (Expr-F.Bracket place inner) }
{
    let Part {
        value,
        by_name,
        pieces,
        ..
    } = inner;
    Part {
        place,
        value,
        by_name,
        pieces,
    }
}

/// Each as one that has a type.
fn each_typed(alloc: Global, parts: Items<Part>) -> Result<Items<Option<TypedPart>>, AllocError>
    ensures { IfOk result (λ r. r ≡ map l.typed_part parts) }
{
    let mut typed = Items::new(alloc);
    for part in parts.into_vec() {
        typed.push(typed_part(part))?;
    }
    Ok(typed)
}

/// Parts of which all have types.
pub fn typed_parts(alloc: Global, parts: Items<Part>) -> Maybe<Items<TypedPart>>
    ensures { IfOk result (λ r. r ≡ l.all_typed_parts parts) }
{
    let typed = each_typed(alloc, parts)?;
    all_typed(alloc, typed)
}

/// A constructor of a scalar or a vector of parts that are looked at as values.
#[tactic(auto, using(crate::proofs::ComponentsFit::construct_is, crate::proofs::ComponentsFit::sites_are))]
pub fn constructed(
    notes: &mut Notes,
    c: &Context,
    place: Place,
    of: ValueType,
    parts: Items<Part>,
) -> Seen
    ensures { Gives (layer_part c.now (Expr-F.Construct place of parts)) (s.construct_sites place of parts) result notes.old.list notes.new.list }
{
    let typed = typed_parts(notes.alloc, parts)?;
    let value = made(notes, place, of, typed)?;
    plain(notes.alloc, place, value)
}
