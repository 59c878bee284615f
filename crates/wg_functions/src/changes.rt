ghost use Rattle.std.specs.Prelude.{◌≡◌, OnOk};
ghost use Rattle.wg_typing.specs.TypingChanged as t;
ghost use Rattle.wg_notes.specs.Notes.{with_events};

use wg_notes::{Noted, Notes};
use wg_typed::{TypedExpr, TypedKind};
use wg_typing::{Event, Part, Value};

/// The variable of which a place is a part.
pub fn root(tree: &TypedExpr) -> Option<u32>
    ensures { result ≡ t.root tree.now }
{
    match &tree.kind {
        TypedKind::Variable { variable } => Some(*variable),
        TypedKind::Access { base, .. } => root(base.get()),
        TypedKind::Literal { .. }
        | TypedKind::Shared { .. }
        | TypedKind::Element { .. }
        | TypedKind::Load { .. }
        | TypedKind::Input { .. }
        | TypedKind::Count
        | TypedKind::Finished
        | TypedKind::Handle { .. }
        | TypedKind::IsValid { .. }
        | TypedKind::Levels
        | TypedKind::Zeros
        | TypedKind::Prefix { .. }
        | TypedKind::Convert { .. }
        | TypedKind::Chain { .. }
        | TypedKind::Choice { .. }
        | TypedKind::Construct { .. }
        | TypedKind::Call { .. }
        | TypedKind::Intrinsic { .. } => None,
    }
}

fn changed_if(notes: &mut Notes, variable: Option<u32>) -> Noted
    ensures { OnOk result (notes.new.list ≡ with_events (t.changed_if variable) notes.old.list) }
{
    match variable {
        Some(variable) => notes.event(Event::Changes { variable }),
        None => Ok(()),
    }
}

/// The variable that changes where a part is assigned, or given back.
pub fn changed(notes: &mut Notes, part: &Part) -> Noted
    ensures { OnOk result (notes.new.list ≡ with_events (t.changed part.now) notes.old.list) }
{
    match &part.value {
        Some(Value::Typed { tree, .. }) => changed_if(notes, root(tree.get())),
        Some(Value::Object { .. } | Value::Act { .. } | Value::Text { .. }) | None => Ok(()),
    }
}
