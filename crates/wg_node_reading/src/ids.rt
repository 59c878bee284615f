//! The names and indices of nodes.
ghost use Rattle.std.specs.Prelude.{◌≡◌, IfOk};
ghost use Rattle.std.specs.Option.{option_copied};
ghost use Rattle.wg_node_attributes.specs.Ids as i;

use crate::numbers::number_in;
use std::alloc::{AllocError, Global};
use wg_attribute_arguments::first_named;
use wg_text::is_identifier;
use wg_typed::{ArgumentValue, TypedArgument, TypedAttribute};
use wg_words::Name;

/// A string that is a name.
fn name_in(value: &ArgumentValue) -> Option<&[u8]>
    ensures { option_copied result ≡ i.name_in value.now }
{
    match value {
        ArgumentValue::Text { bytes } => if is_identifier(bytes.as_slice()) {
            Some(bytes.as_slice())
        } else {
            None
        },
        ArgumentValue::Number { .. } | ArgumentValue::Parameter { .. } | ArgumentValue::Other =>
            None,
    }
}

fn first_name(arguments: &[TypedArgument]) -> Option<&[u8]>
    ensures { option_copied result ≡ i.first_name arguments.now }
{
    match arguments {
        [name] => name_in(&name.value),
        [name, _] => name_in(&name.value),
        _ => None,
    }
}

fn name_said(list: &[TypedAttribute]) -> Option<&[u8]>
    ensures { option_copied result ≡ i.name_said list.now }
{
    let id = first_named(b"NodeID", list)?;
    first_name(id.arguments.as_slice())
}

/// The name that `NodeID` says, and the own one where it says none.
pub fn id_name(alloc: Global, own: &[u8], list: &[TypedAttribute]) -> Result<Name, AllocError>
    ensures { IfOk result (λ name. name ≡ i.id_name own.now list.now) }
{
    match name_said(list) {
        Some(name) => Name::from_slice(alloc, name),
        None => Name::from_slice(alloc, own),
    }
}

fn second_number(arguments: &[TypedArgument]) -> Option<u32>
    ensures { result ≡ i.second_number arguments.now }
{
    match arguments {
        [_, index] => number_in(0, 255, &index.value),
        _ => None,
    }
}

fn index_said(list: &[TypedAttribute]) -> Option<u32>
    ensures { result ≡ i.index_said list.now }
{
    let id = first_named(b"NodeID", list)?;
    second_number(id.arguments.as_slice())
}

/// The index that `NodeID` says, and 0 where it says none.
pub fn id_index(list: &[TypedAttribute]) -> u32
    ensures { result ≡ i.id_index list.now }
{
    index_said(list).unwrap_or(0)
}

/// The index of an output; the elements of an array begin at 0.
pub fn output_index(array: bool, list: &[TypedAttribute]) -> u32
    ensures { result ≡ i.output_index array list.now }
{
    if array { 0 } else { id_index(list) }
}
