//! What arguments of attributes are, one by one.
ghost use Rattle.std.specs.Prelude.{◌≡◌};
ghost use Rattle.wg_typing.specs.AttributeArguments as g;
ghost use Rattle.wg_typing.specs.AttributeRange as r;

use wg_typed::{ArgumentValue, ConstValue};

/// An `int` or a `uint`.
pub fn is_narrow(v: ConstValue) -> bool
    ensures { result ≡ g.is_narrow v }
{
    v.bits == 32
}

/// Such a number, of at least 1.
fn is_positive(v: ConstValue) -> bool
    ensures { result ≡ g.is_positive v }
{
    is_narrow(v) & ((v.value > 0) & !(v.signed & (v.value >= 0x8000_0000)))
}

/// A number of at least 1.
pub fn count_in(value: &ArgumentValue) -> Option<u64>
    ensures { result ≡ g.count_in value.now }
{
    match value {
        ArgumentValue::Number { value } => if is_positive(*value) {
            Some(value.value)
        } else {
            None
        },
        ArgumentValue::Text { .. } | ArgumentValue::Parameter { .. } | ArgumentValue::Other => None,
    }
}

/// A number of groups in one direction, from 1 to 65,535.
pub fn groups_in(value: &ArgumentValue) -> Option<u64>
    ensures { result ≡ r.groups_in value.now }
{
    match value {
        ArgumentValue::Number { value } => {
            if is_narrow(*value) & ((1 <= value.value) & (value.value <= 65_535)) {
                Some(value.value)
            } else {
                None
            }
        }
        ArgumentValue::Text { .. } | ArgumentValue::Parameter { .. } | ArgumentValue::Other => None,
    }
}
