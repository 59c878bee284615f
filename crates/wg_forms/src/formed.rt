ghost use Rattle.std.specs.Prelude.{◌≡◌, List, IfOk, OnOk};
ghost use Rattle.wg_tree.specs.declared.expr.Expr.TheOpen.{Expr-F};
ghost use Rattle.wg_typing.specs.Scope.{Context};
ghost use Rattle.wg_typing.specs.Site.{AtUsed};
ghost use Rattle.wg_typing.specs.Sites.{only};
ghost use Rattle.wg_typing.specs.TypingCalled.{broken_call};
ghost use Rattle.wg_typing.specs.TypingExpr.{ExprForm, forms_sites, layer_part};
ghost use Rattle.wg_typing.specs.TypingForms as t;
ghost use Rattle.wg_typing.specs.declared.part.FormLayer.{FormLayer};
ghost use Rattle.wg_typing.specs.declared.part.Part.{Part};
ghost use Rattle.wg_notes.specs.Notes.{Gives, noted, noted_at};
ghost use Rattle.wg_forms.specs.Forms as w;

use std::alloc::{AllocError, Global};
use wg_layers::{Seen, another};
use wg_members::{begun as along_of, finish};
use wg_notes::{Noted, Notes, Valued};
use wg_typing::{Along, NamedCall, Part};
use wg_words::Place;

/// What the forms so far give, at the first token of all, and what the last of them calls.
#[derive(Drop)]
pub struct Formed {
    pub place: Place,
    pub along: Option<Along>,
    pub called: Option<NamedCall>,
}

/// An output call or a barrier that syncs, where neither may stand.
fn used(notes: &mut Notes, call: Option<NamedCall>) -> Noted
    ensures { OnOk result (notes.new.list ≡ noted_at (AtUsed call) notes.old.list) }
{
    notes.barrier_used(call)?;
    notes.output_used(call)
}

/// The call that a broken part is by its name.
fn call_in(part: &Part) -> Option<NamedCall>
    ensures { result ≡ broken_call part.now }
{
    match &part.value {
        Some(_) => None,
        None => part.by_name,
    }
}

/// A value before the forms after it: whatever these are, what is noted of them from here on is what the rules say of them.
#[tactic(auto, using(crate::proofs::Folded::sites_are))]
pub fn begun(notes: &mut Notes, first: Part) -> Result<Formed, AllocError>
    ensures begins { Gives (w.formed_begun first) (only (AtUsed (broken_call first))) result notes.old.list notes.new.list }
    ensures follows { IfOk result (λ s. (c : Context) (forms : List (FormLayer ExprForm)) → noted (w.more_sites c s forms) notes.new.list ≡ noted (forms_sites c first.place (t.begun first) forms) notes.new.list) }
{
    used(notes, call_in(&first))?;
    let place = first.place;
    Ok(Formed {
        place,
        along: along_of(notes.alloc, first),
        called: None,
    })
}

/// What stands before one more form, where a rule is broken in it.
pub fn before(notes: &mut Notes, s: &Formed) -> Noted
    ensures { OnOk result (notes.new.list ≡ noted_at (AtUsed (w.broken_before s.now)) notes.old.list) }
{
    match &s.along {
        Some(_) => Ok(()),
        None => used(notes, s.called),
    }
}

fn finished(alloc: Global, place: Place, along: Option<Along>) -> Valued
    ensures { IfOk result (λ r. r ≡ w.finished place along) }
{
    let along = given!(along);
    Ok(Some(finish(alloc, place, along)?))
}

/// What follows a value as a part with that value: of whatever forms it is.
#[tactic(auto, using(crate::proofs::Folded::part_is))]
pub fn ended(alloc: Global, s: Formed) -> Seen
    ensures { IfOk result (λ r. (c : Context) (first : Part) (forms : List (FormLayer Part)) → s ≡ w.formed_of c first forms → r ≡ layer_part c (Expr-F.Postfix first forms)) }
{
    let Formed {
        place,
        along,
        called,
    } = s;
    let value = finished(alloc, place, along)?;
    let pieces = another(alloc, &value)?;
    Ok(Part {
        place,
        value,
        by_name: called,
        pieces,
    })
}
