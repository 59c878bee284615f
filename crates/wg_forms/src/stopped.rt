ghost use Rattle.std.specs.Prelude.{◌≡◌, None, Some, OnOk};
ghost use Rattle.wg_typing.specs.Sites.{at_if};
ghost use Rattle.wg_typing.specs.TypingActs as a;
ghost use Rattle.wg_notes.specs.Notes.{with_faults};
ghost use Rattle.wg_forms.specs.Forms as w;

use wg_notes::{Noted, Notes, act_kind, named_call};
use wg_typing::Act;
use wg_words::Place;

/// A call without a value before a form, at the first token of all.
pub fn act_before(notes: &mut Notes, place: Place, name: Place, act: &Act) -> Noted
    ensures { OnOk result (notes.new.list ≡ w.act_before place name act.now notes.old.list) }
{
    let call = named_call(name, act_kind(act));
    notes.fault_if(call.is_none(), 303, place)?;
    notes.barrier_used(call)?;
    notes.output_used(call)
}
