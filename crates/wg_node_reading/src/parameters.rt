//! The parameters of a node, by their numbers.
ghost use Rattle.std.specs.Prelude.{◌≡◌};
ghost use Rattle.wg_node_attributes.specs.Parameters as p;

use wg_attribute_arguments::kind_of;
use wg_typed::{TypedAttribute, TypedParameter, TypedParameterType};
use wg_typing::ParameterKind;

/// The attributes of a parameter.
pub fn attributes_at(parameters: &[TypedParameter], number: u32) -> &[TypedAttribute]
    ensures { result.now ≡ p.attributes_at parameters.now number }
{
    match parameters.get(number as usize) {
        Some(found) => found.attributes.as_slice(),
        None => &[],
    }
}

/// The name of a parameter.
pub fn name_at(parameters: &[TypedParameter], number: u32) -> &[u8]
    ensures { result.now ≡ p.name_at parameters.now number }
{
    match parameters.get(number as usize) {
        Some(found) => found.name.name.as_slice(),
        None => &[],
    }
}

fn is_array(kind: ParameterKind) -> bool
    ensures { result ≡ p.is_array kind }
{
    match kind {
        ParameterKind::Output { array } => array,
        ParameterKind::Value | ParameterKind::Input { .. } | ParameterKind::Handle => false,
    }
}

/// Whether a parameter is an output array.
pub fn is_array_at(parameters: &[TypedParameter], number: u32) -> bool
    ensures { result ≡ p.is_array_at parameters.now number }
{
    match parameters.get(number as usize) {
        Some(found) => is_array(kind_of(found.of)),
        None => false,
    }
}

fn record_of(of: TypedParameterType) -> Option<u32>
    ensures { result ≡ p.record_of of }
{
    match of {
        TypedParameterType::Object { record, .. } => record,
        TypedParameterType::Value { .. } => None,
    }
}

/// The struct of the input's records.
pub fn record_at(parameters: &[TypedParameter], input: Option<u32>) -> Option<u32>
    ensures { result ≡ p.record_at parameters.now input }
{
    match parameters.get(input? as usize) {
        Some(found) => record_of(found.of),
        None => None,
    }
}

/// The attributes of the input.
pub fn input_attributes(parameters: &[TypedParameter], input: Option<u32>) -> &[TypedAttribute]
    ensures { result.now ≡ p.input_attributes parameters.now input }
{
    match input {
        Some(number) => attributes_at(parameters, number),
        None => &[],
    }
}
