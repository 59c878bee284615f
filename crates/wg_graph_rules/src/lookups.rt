//! What a text has of a node and its outputs.
ghost use Rattle.std.specs.Prelude.{◌≡◌};
ghost use Rattle.std.specs.Option.{option_copied};
ghost use Rattle.wg_shapes.specs.Places as p;
ghost use Rattle.wg_shapes.specs.Records as r;

use wg_node_attributes::{NodeAttrs, OutputAttr};
use wg_typed::{Typed, TypedParameter, TypedParameterType};
use wg_words::Place;

/// The first byte of a text.
pub const FIRST_PLACE: Place = Place { line: 1, column: 1 };

/// The name of a node's function.
pub fn node_place(typed: &Typed, a: &NodeAttrs) -> Place
    ensures { result ≡ p.node_place typed.now a.now }
{
    match typed.functions.get(a.function as usize) {
        Some(f) => f.name.place,
        None => FIRST_PLACE,
    }
}

/// A parameter of a function, by their numbers.
fn parameter_of<'a>(typed: &'a Typed, function: u32, number: u32) -> Option<&'a TypedParameter>
    ensures { option_copied result ≡ r.parameter_of typed.now function number }
{
    match typed.functions.get(function as usize) {
        Some(f) => f.parameters.get(number as usize),
        None => None,
    }
}

/// The name of an output.
pub fn output_place(typed: &Typed, a: &NodeAttrs, o: &OutputAttr) -> Place
    ensures { result ≡ p.output_place typed.now a.now o.now }
{
    match parameter_of(typed, a.function, o.param) {
        Some(p) => p.name.place,
        None => FIRST_PLACE,
    }
}

fn record_type(of: TypedParameterType) -> Option<u32>
    ensures { result ≡ r.record_type of }
{
    match of {
        TypedParameterType::Value { .. } => None,
        TypedParameterType::Object { record, .. } => record,
    }
}

fn record_in(parameter: Option<&TypedParameter>) -> Option<u32>
    ensures { result ≡ r.record_in (option_copied parameter.entry) }
{
    match parameter {
        Some(p) => record_type(p.of),
        None => None,
    }
}

/// The parameter that is a node's input.
pub fn input_of<'a>(typed: &'a Typed, a: &NodeAttrs) -> Option<&'a TypedParameter>
    ensures { option_copied result ≡ r.input_of typed.now a.now }
{
    match a.input {
        Some(number) => parameter_of(typed, a.function, number),
        None => None,
    }
}

/// The record type of a node's input, by the number of its struct.
pub fn input_record(typed: &Typed, a: &NodeAttrs) -> Option<u32>
    ensures { result ≡ r.input_record typed.now a.now }
{
    record_in(input_of(typed, a))
}

/// The record type of an output.
pub fn output_record(typed: &Typed, a: &NodeAttrs, o: &OutputAttr) -> Option<u32>
    ensures { result ≡ r.output_record typed.now a.now o.now }
{
    record_in(parameter_of(typed, a.function, o.param))
}
