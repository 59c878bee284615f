ghost use Rattle.std.specs.Prelude.{◌≡◌, Some, OnOk};
ghost use Rattle.wg_typing.specs.PartSites.{form_sites};
ghost use Rattle.wg_typing.specs.Site.{AtForm};
ghost use Rattle.wg_typing.specs.Sites.{only, ◌&◌};
ghost use Rattle.wg_typing.specs.TypingExpr.{form_after, form_at};
ghost use Rattle.wg_typing.specs.TypingForms.{form_on};
ghost use Rattle.wg_typing.specs.declared.part.Along.TheVariants as along;
ghost use Rattle.wg_typing.specs.declared.part.FormLayer.TheVariants as form_layer;
ghost use Rattle.wg_notes.specs.Notes.{Gives, noted_at};
ghost use Rattle.wg_forms.specs.Forms as w;

use crate::elements::object_element;
use crate::formed::Formed;
use crate::stopped::act_before;
use std::alloc::AllocError;
use wg_members::{element as typed_element, member as typed_member};
use wg_notes::{Maybe, Noted, Notes};
use wg_scope::Context;
use wg_tree::Named;
use wg_typing::{Along, Part, Value};
use wg_words::Place;

/// What is noted of a member of what has none.
fn no_member(notes: &mut Notes, c: &Context, place: Place, value: &Value, member: &Named) -> Noted
    ensures { OnOk result (notes.new.list ≡ noted_at (AtForm c.now place (along.Other value.now) (form_layer.Member member.now)) notes.old.list) }
{
    match value {
        Value::Typed { .. } => Ok(()),
        Value::Object { .. } => notes.fault(301, member.place),
        Value::Act { name, act } => act_before(notes, place, *name, act),
        Value::Text { .. } => notes.fault(303, place),
    }
}

fn member_after(
    notes: &mut Notes,
    c: &Context,
    place: Place,
    before: Along,
    name: &Named,
) -> Maybe<Along>
    ensures { Gives (form_on c.now place before (form_layer.Member name.now)) (only (AtForm c.now place before (form_layer.Member name.now)) & form_sites before (form_layer.Member name.now)) result notes.old.list notes.new.list }
{
    match before {
        Along::Typed { reached } => typed_member(notes, c, place, reached, name),
        Along::Other { value } => {
            no_member(notes, c, place, &value, name)?;
            Ok(None)
        }
    }
}

fn member_if(
    notes: &mut Notes,
    c: &Context,
    place: Place,
    before: Option<Along>,
    name: &Named,
) -> Maybe<Along>
    ensures { Gives (form_after c.now place before (form_layer.Member name.now)) (form_at c.now place before (form_layer.Member name.now)) result notes.old.list notes.new.list }
{
    let before = given!(before);
    member_after(notes, c, place, before, name)
}

/// A member or a component after what stands so far.
#[tactic(auto, using(crate::proofs::Uncalled::no_member_call))]
pub fn member(notes: &mut Notes, c: &Context, s: Formed, name: &Named) -> Result<Formed, AllocError>
    ensures { Gives (w.formed_on c.now s (form_layer.Member name.now)) (form_at c.now s.place s.along (form_layer.Member name.now)) result notes.old.list notes.new.list }
{
    let Formed { place, along, .. } = s;
    let along = member_if(notes, c, place, along, name)?;
    Ok(Formed {
        place,
        along,
        called: None,
    })
}

#[tactic(auto, using(crate::proofs::Indexed::indexed_is))]
fn element_after(
    notes: &mut Notes,
    c: &Context,
    place: Place,
    before: Value,
    at: Part,
) -> Maybe<Along>
    ensures { Gives (form_on c.now place (along.Other before) (form_layer.Index at)) (only (AtForm c.now place (along.Other before) (form_layer.Index at)) & form_sites (along.Other before) (form_layer.Index at)) result notes.old.list notes.new.list }
{
    match before {
        Value::Typed { .. } => Ok(None),
        Value::Object { object, .. } => object_element(notes, place, object, at),
        Value::Act { name, act } => {
            act_before(notes, place, name, &act)?;
            Ok(None)
        }
        Value::Text { .. } => {
            notes.fault(303, place)?;
            Ok(None)
        }
    }
}

fn index_after(
    notes: &mut Notes,
    c: &Context,
    place: Place,
    before: Option<Along>,
    at: Part,
) -> Maybe<Along>
    ensures { Gives (form_after c.now place before (form_layer.Index at)) (form_at c.now place before (form_layer.Index at)) result notes.old.list notes.new.list }
{
    match given!(before) {
        Along::Typed { reached } => typed_element(notes, c, place, reached, at),
        Along::Other { value } => element_after(notes, c, place, value, at),
    }
}

/// An index after what stands so far.
#[tactic(auto, using(crate::proofs::Uncalled::no_index_call))]
pub fn index(notes: &mut Notes, c: &Context, s: Formed, at: Part) -> Result<Formed, AllocError>
    ensures { Gives (w.formed_on c.now s (form_layer.Index at)) (form_at c.now s.place s.along (form_layer.Index at)) result notes.old.list notes.new.list }
{
    let Formed { place, along, .. } = s;
    let along = index_after(notes, c, place, along, at)?;
    Ok(Formed {
        place,
        along,
        called: None,
    })
}
