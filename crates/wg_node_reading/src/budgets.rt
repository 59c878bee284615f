//! The budgets of a node.
ghost use Rattle.std.specs.Prelude.{◌≡◌, IfOk};
ghost use Rattle.wg_node_attributes.specs.Budgets as b;

use crate::numbers::count_said;
use crate::parameters::attributes_at;
use std::alloc::{AllocError, Global};
use wg_attribute_arguments::{first_named, has};
use wg_typed::{ArgumentValue, TypedArgument, TypedAttribute, TypedParameter};
use wg_words::Words;

fn owns(parameters: &[TypedParameter], number: u32) -> bool
    ensures { result ≡ b.owns parameters.now number }
{
    has(b"MaxRecords", attributes_at(parameters, number))
}

/// The outputs that own a budget, in their order.
pub fn owners(
    alloc: Global,
    parameters: &[TypedParameter],
    outputs: &[u32],
) -> Result<Words, AllocError>
    ensures { IfOk result (λ r. r ≡ b.owners parameters.now outputs.now) }
{
    let mut owners = Words::new(alloc);
    for number in outputs {
        if owns(parameters, *number) {
            owners.push(*number)?;
        }
    }
    Ok(owners)
}

fn parameter_in(value: &ArgumentValue) -> Option<u32>
    ensures { result ≡ b.parameter_in value.now }
{
    match value {
        ArgumentValue::Parameter { parameter } => Some(*parameter),
        ArgumentValue::Number { .. } | ArgumentValue::Text { .. } | ArgumentValue::Other => None,
    }
}

fn one_parameter(arguments: &[TypedArgument]) -> Option<u32>
    ensures { result ≡ b.one_parameter arguments.now }
{
    match arguments {
        [a] => parameter_in(&a.value),
        _ => None,
    }
}

/// The parameter that `MaxRecordsSharedWith` names.
fn partner(list: &[TypedAttribute]) -> Option<u32>
    ensures { result ≡ b.partner list.now }
{
    let shared = first_named(b"MaxRecordsSharedWith", list)?;
    one_parameter(shared.arguments.as_slice())
}

/// The output whose budget an output's records count against.
pub fn owner_of(parameters: &[TypedParameter], number: u32) -> u32
    ensures { result ≡ b.owner_of parameters.now number }
{
    if owns(parameters, number) {
        return number;
    }
    partner(attributes_at(parameters, number)).unwrap_or(number)
}

/// The place of a number in a list. One that 32 bits cannot count has no room in memory.
pub fn place_in(list: &[u32], number: u32) -> Result<u32, AllocError>
    ensures { IfOk result (λ place. place ≡ b.place_in list.now number) }
{
    let mut place: u32 = 0;
    for other in list {
        if *other == number {
            return Ok(place);
        }
        place = place.checked_add(1).ok_or(AllocError)?;
    }
    Ok(place)
}

/// An owner's bound.
pub fn most_at(parameters: &[TypedParameter], owner: u32) -> u32
    ensures { result ≡ b.most_at parameters.now owner }
{
    count_said(256, b"MaxRecords", attributes_at(parameters, owner))
}
