//! The number that an attribute says.
ghost use Rattle.std.specs.Prelude.{◌≡◌};
ghost use Rattle.wg_node_attributes.specs.Numbers as n;

use wg_attribute_arguments::{first_named, is_narrow};
use wg_typed::{ArgumentValue, ConstValue, TypedArgument, TypedAttribute};

/// An `int` or a `uint` from `low` to `high`.
fn between(low: u32, high: u32, v: ConstValue) -> Option<u32>
    ensures { result ≡ n.between low high v }
{
    if is_narrow(v) & ((u64::from(low) <= v.value) & (v.value <= u64::from(high))) {
        Some(v.value as u32)
    } else {
        None
    }
}

/// A number from `low` to `high`.
pub fn number_in(low: u32, high: u32, value: &ArgumentValue) -> Option<u32>
    ensures { result ≡ n.number_in low high value.now }
{
    match value {
        ArgumentValue::Number { value } => between(low, high, *value),
        ArgumentValue::Text { .. } | ArgumentValue::Parameter { .. } | ArgumentValue::Other => None,
    }
}

fn one_number(low: u32, high: u32, arguments: &[TypedArgument]) -> Option<u32>
    ensures { result ≡ n.one_number low high arguments.now }
{
    match arguments {
        [a] => number_in(low, high, &a.value),
        _ => None,
    }
}

/// The number of the first attribute of a name.
pub fn number_said(low: u32, high: u32, name: &[u8], list: &[TypedAttribute]) -> Option<u32>
    ensures { result ≡ n.number_said low high name.now list.now }
{
    let a = first_named(name, list)?;
    one_number(low, high, a.arguments.as_slice())
}

/// The same, of at least 1; 1 where there is none.
pub fn count_said(high: u32, name: &[u8], list: &[TypedAttribute]) -> u32
    ensures { result ≡ n.count_said high name.now list.now }
{
    number_said(1, high, name, list).unwrap_or(1)
}
