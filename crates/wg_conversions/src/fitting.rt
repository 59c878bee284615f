ghost use Rattle.std.specs.Prelude.{◌≡◌};
ghost use Rattle.wg_typing.specs.Conversions as c;

use crate::types::{is_wide, numbers};
use wg_tree::Scalar;
use wg_typed::{ElementType, TypeTree};
use wg_typing::Numbers;

/// A number of its own for each scalar.
fn scalar_number(s: Scalar) -> u32
    ensures { result ≡ c.scalar_number s }
{
    match s {
        Scalar::Bool => 0,
        Scalar::Int => 1,
        Scalar::Uint => 2,
        Scalar::Int16 => 3,
        Scalar::Uint16 => 4,
        Scalar::Int64 => 5,
        Scalar::Uint64 => 6,
    }
}

pub fn same_scalar(a: Scalar, b: Scalar) -> bool
    ensures { result ≡ c.same_scalar a b }
{
    scalar_number(a) == scalar_number(b)
}

fn same_element(a: ElementType, b: ElementType) -> bool
    ensures { result ≡ c.same_element a b }
{
    match (a, b) {
        (ElementType::Scalar { of: a }, ElementType::Scalar { of: b }) => same_scalar(a, b),
        (ElementType::Vector { of: a, size: m }, ElementType::Vector { of: b, size: n }) => {
            same_scalar(a, b) & (m == n)
        }
        (ElementType::Struct { number: a }, ElementType::Struct { number: b }) => a == b,
        _ => false,
    }
}

/// Equal struct types are of one name.
pub fn same_type(a: TypeTree, b: TypeTree) -> bool
    ensures { result ≡ c.same_type a b }
{
    match (a, b) {
        (TypeTree::Scalar { of: a }, TypeTree::Scalar { of: b }) => same_scalar(a, b),
        (TypeTree::Vector { of: a, size: m }, TypeTree::Vector { of: b, size: n }) => {
            same_scalar(a, b) & (m == n)
        }
        (TypeTree::Struct { number: a }, TypeTree::Struct { number: b }) => a == b,
        (TypeTree::Array { of: a, size: m }, TypeTree::Array { of: b, size: n }) => {
            same_element(a, b) & (m == n)
        }
        _ => false,
    }
}

/// A scalar fills a vector, but no wide one does; two vectors have equal sizes.
pub fn size_fits(from: Numbers, goal: Option<u32>) -> bool
    ensures { result ≡ c.size_fits from goal }
{
    match (from.size, goal) {
        (None, None) => true,
        (None, Some(_)) => !is_wide(from.of),
        (Some(m), Some(n)) => m == n,
        (Some(_), None) => false,
    }
}

fn numbers_fit(from: Option<Numbers>, goal: Option<Numbers>) -> bool
    ensures { result ≡ c.numbers_fit from goal }
{
    match (from, goal) {
        (Some(a), Some(b)) => size_fits(a, b.size),
        _ => false,
    }
}

/// Whether a value of the one type may stand where the other is wanted: the scalars convert to each other.
pub fn fits(from: TypeTree, goal: TypeTree) -> bool
    ensures { result ≡ c.fits from goal }
{
    same_type(from, goal) | numbers_fit(numbers(from), numbers(goal))
}
