ghost use Rattle.std.specs.Prelude.{◌≡◌};
ghost use Rattle.wg_typing.specs.TypingActs as a;
ghost use Rattle.wg_typing.specs.Layers as l;

use wg_typing::{Act, CallKind, NamedCall, Part, Value};
use wg_words::Place;

pub fn is_sync(kind: CallKind) -> bool
    ensures { result ≡ a.is_sync kind }
{
    match kind {
        CallKind::Syncs => true,
        CallKind::Requests
        | CallKind::Increments
        | CallKind::Completes { .. }
        | CallKind::Finishes { .. } => false,
    }
}

pub fn is_output(kind: CallKind) -> bool
    ensures { result ≡ a.is_output kind }
{
    match kind {
        CallKind::Syncs => false,
        CallKind::Requests
        | CallKind::Increments
        | CallKind::Completes { .. }
        | CallKind::Finishes { .. } => true,
    }
}

/// What kind of call without a value it is: none where it is a plain step, or a barrier that does not sync.
pub fn act_kind(act: &Act) -> Option<CallKind>
    ensures { result ≡ a.act_kind act.now }
{
    match act {
        Act::Step { .. } | Act::Barrier { syncs: false } => None,
        Act::Barrier { syncs: true } => Some(CallKind::Syncs),
        Act::Request { .. } => Some(CallKind::Requests),
        Act::Increment { .. } => Some(CallKind::Increments),
        Act::Complete { handle } => Some(CallKind::Completes { handle: *handle }),
        Act::Finished { tracked } => Some(CallKind::Finishes { tracked: *tracked }),
    }
}

pub fn named_call(name: Place, kind: Option<CallKind>) -> Option<NamedCall>
    ensures { result ≡ a.named_call name kind }
{
    Some(NamedCall { name, kind: kind? })
}

/// The call that an expression is: by its value, and where a rule is broken in its arguments by its name.
pub fn call_of(part: &Part) -> Option<NamedCall>
    ensures { result ≡ l.call_of part.now }
{
    match &part.value {
        Some(Value::Act { name, act }) => named_call(*name, act_kind(act)),
        Some(Value::Typed { .. } | Value::Object { .. } | Value::Text { .. }) => None,
        None => part.by_name,
    }
}
