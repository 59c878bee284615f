//! The launch mode of a node.
ghost use Rattle.std.specs.Prelude.{◌≡◌};
ghost use Rattle.wg_typing.specs.AttributeArguments as g;
ghost use Rattle.wg_typing.specs.Named.{at_name};

use crate::names::first_named;
use wg_typed::{ArgumentValue, TypedArgument, TypedAttribute};
use wg_typing::Mode;

/// The mode of a name.
fn mode_of_name(name: &[u8]) -> Option<Mode>
    ensures { result ≡ at_name g.mode_names name.now }
{
    if b"broadcasting".as_slice() == name {
        return Some(Mode::Broadcasting);
    }
    if b"coalescing".as_slice() == name {
        return Some(Mode::Coalescing);
    }
    if b"thread".as_slice() == name {
        return Some(Mode::Thread);
    }
    None
}

fn named_by(value: &ArgumentValue) -> Option<Mode>
    ensures { result ≡ g.named_by value.now }
{
    match value {
        ArgumentValue::Text { bytes } => mode_of_name(bytes.as_slice()),
        ArgumentValue::Number { .. } | ArgumentValue::Parameter { .. } | ArgumentValue::Other =>
            None,
    }
}

/// The launch mode that one string names.
pub fn mode_named(arguments: &[TypedArgument]) -> Option<Mode>
    ensures { result ≡ g.mode_named arguments.now }
{
    match arguments {
        [a] => named_by(&a.value),
        _ => None,
    }
}

/// The launch mode of a node, by its first `NodeLaunch`.
pub fn mode_of(list: &[TypedAttribute]) -> Option<Mode>
    ensures { result ≡ g.mode_of list.now }
{
    let a = first_named(b"NodeLaunch", list)?;
    mode_named(a.arguments.as_slice())
}
