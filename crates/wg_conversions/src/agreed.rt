ghost use Rattle.std.specs.Prelude.{◌≡◌};
ghost use Rattle.wg_typed.specs.Operators as o;
ghost use Rattle.wg_typing.specs.Conversions as c;

use crate::fitting::size_fits;
use wg_tree::Scalar;
use wg_typed::{counted, wider};
use wg_typing::Numbers;

fn common_scalar(a: Scalar, b: Scalar) -> Scalar
    ensures { result ≡ o.common_scalar a b }
{
    wider(counted(a), counted(b))
}

fn is_truth(s: Scalar) -> bool
    ensures { result ≡ c.is_truth s }
{
    match s {
        Scalar::Bool => true,
        Scalar::Int
        | Scalar::Uint
        | Scalar::Int16
        | Scalar::Uint16
        | Scalar::Int64
        | Scalar::Uint64 => false,
    }
}

/// The common scalar, where two `bool` stay `bool`.
fn chosen_scalar(a: Scalar, b: Scalar) -> Scalar
    ensures { result ≡ c.chosen_scalar a b }
{
    if is_truth(a) & is_truth(b) {
        Scalar::Bool
    } else {
        common_scalar(a, b)
    }
}

/// A scalar with a vector is taken for each component.
fn common_size(a: Option<u32>, b: Option<u32>) -> Option<Option<u32>>
    ensures { result ≡ c.common_size a b }
{
    match (a, b) {
        (None, _) => Some(b),
        (Some(m), None) => Some(Some(m)),
        (Some(m), Some(n)) => if m == n { Some(Some(m)) } else { None },
    }
}

/// The common size, where both may be of it: a wide scalar is not taken with a vector.
pub fn joined_size(a: Numbers, b: Numbers) -> Option<Option<u32>>
    ensures { result ≡ c.joined_size a b }
{
    let size = common_size(a.size, b.size)?;
    if size_fits(a, size) & size_fits(b, size) {
        Some(size)
    } else {
        None
    }
}

/// The type in which two operands are taken.
pub fn common(a: Numbers, b: Numbers) -> Option<Numbers>
    ensures { result ≡ c.common a b }
{
    let size = joined_size(a, b)?;
    Some(Numbers {
        of: common_scalar(a.of, b.of),
        size,
    })
}

/// The same, where two `bool` stay `bool`.
pub fn common_numbers(a: Numbers, b: Numbers) -> Option<Numbers>
    ensures { result ≡ c.common_numbers a b }
{
    let size = joined_size(a, b)?;
    Some(Numbers {
        of: chosen_scalar(a.of, b.of),
        size,
    })
}
