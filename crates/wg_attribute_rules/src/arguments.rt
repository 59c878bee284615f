//! What arguments of attributes are, one by one.
ghost use Rattle.std.specs.Prelude.{◌≡◌};
ghost use Rattle.wg_typing.specs.AttributeArguments as g;
ghost use Rattle.wg_typing.specs.AttributeRange as r;

use wg_attribute_arguments::is_narrow;
use wg_text::is_identifier;
use wg_typed::ArgumentValue;

/// A number.
pub fn is_number(value: &ArgumentValue) -> bool
    ensures { result ≡ r.is_number value.now }
{
    match value {
        ArgumentValue::Number { value } => is_narrow(*value),
        ArgumentValue::Text { .. } | ArgumentValue::Parameter { .. } | ArgumentValue::Other => {
            false
        }
    }
}

/// A number from `low` to `high`.
pub fn is_number_between(low: u64, high: u64, value: &ArgumentValue) -> bool
    ensures { result ≡ r.is_number_between low high value.now }
{
    match value {
        ArgumentValue::Number { value } => {
            is_narrow(*value) & ((low <= value.value) & (value.value <= high))
        }
        ArgumentValue::Text { .. } | ArgumentValue::Parameter { .. } | ArgumentValue::Other => {
            false
        }
    }
}

/// A string that is a name.
pub fn is_id_name(value: &ArgumentValue) -> bool
    ensures { result ≡ r.is_id_name value.now }
{
    match value {
        ArgumentValue::Text { bytes } => is_identifier(bytes.as_slice()),
        ArgumentValue::Number { .. } | ArgumentValue::Parameter { .. } | ArgumentValue::Other => {
            false
        }
    }
}

/// The string `node`.
pub fn is_node_text(value: &ArgumentValue) -> bool
    ensures { result ≡ g.is_text "node" value.now }
{
    match value {
        ArgumentValue::Text { bytes } => b"node".as_slice() == bytes.as_slice(),
        ArgumentValue::Number { .. } | ArgumentValue::Parameter { .. } | ArgumentValue::Other => {
            false
        }
    }
}
