ghost use Rattle.std.specs.Prelude.{◌≡◌};
ghost use Rattle.wg_typed.specs.Operators as o;
ghost use Rattle.wg_typing.specs.Conversions as c;

use crate::fitting::same_type;
use wg_tree::{Scalar, ValueType};
use wg_typed::{ElementType, TypeTree, bits_of, scalar_of_literal};
use wg_typing::Numbers;

/// What a type of numbers is made of.
pub fn numbers(t: TypeTree) -> Option<Numbers>
    ensures { result ≡ c.numbers t }
{
    match t {
        TypeTree::Scalar { of } => Some(Numbers { of, size: None }),
        TypeTree::Vector { of, size } => Some(Numbers {
            of,
            size: Some(size),
        }),
        TypeTree::Struct { .. } | TypeTree::Array { .. } => None,
    }
}

pub fn type_of(n: Numbers) -> TypeTree
    ensures { result ≡ c.type_of n }
{
    match n.size {
        None => TypeTree::Scalar { of: n.of },
        Some(size) => TypeTree::Vector { of: n.of, size },
    }
}

pub fn of_value_type(v: ValueType) -> TypeTree
    ensures { result ≡ c.of_value_type v }
{
    match v {
        ValueType::Scalar { of } => TypeTree::Scalar { of },
        ValueType::Vector { of, size } => TypeTree::Vector { of, size },
    }
}

/// The size of a vector.
pub fn size_of(v: ValueType) -> Option<u32>
    ensures { result ≡ c.size_of v }
{
    match v {
        ValueType::Scalar { .. } => None,
        ValueType::Vector { size, .. } => Some(size),
    }
}

pub fn truth_type() -> TypeTree
    ensures { result ≡ c.truth_type }
{
    TypeTree::Scalar { of: Scalar::Bool }
}

pub fn uint_type() -> TypeTree
    ensures { result ≡ c.uint_type }
{
    TypeTree::Scalar { of: Scalar::Uint }
}

/// As many `uint` as that: a scalar for one.
pub fn uints(size: u32) -> TypeTree
    ensures { result ≡ c.uints size }
{
    if size == 1 {
        uint_type()
    } else {
        TypeTree::Vector {
            of: Scalar::Uint,
            size,
        }
    }
}

pub fn is_number(t: TypeTree) -> bool
    ensures { result ≡ c.is_number t }
{
    match t {
        TypeTree::Scalar { .. } | TypeTree::Vector { .. } => true,
        TypeTree::Struct { .. } | TypeTree::Array { .. } => false,
    }
}

pub fn is_scalar(t: TypeTree) -> bool
    ensures { result ≡ c.is_scalar t }
{
    match t {
        TypeTree::Scalar { .. } => true,
        TypeTree::Vector { .. } | TypeTree::Struct { .. } | TypeTree::Array { .. } => false,
    }
}

/// `int` or `uint`.
pub fn is_word(t: TypeTree) -> bool
    ensures { result ≡ c.is_word t }
{
    same_type(t, TypeTree::Scalar { of: Scalar::Int }) | same_type(t, uint_type())
}

/// A scalar of 16 or 64 bits.
pub fn is_wide(s: Scalar) -> bool
    ensures { result ≡ o.is_wide s }
{
    bits_of(s) != 32
}

/// The type of a number as it is written.
pub fn number_type(value: u64, unsigned: bool, long: bool) -> TypeTree
    ensures { result ≡ c.number_type value unsigned long }
{
    TypeTree::Scalar {
        of: scalar_of_literal(value, unsigned, long),
    }
}

/// What an array of the type is made of.
pub fn element_of(t: TypeTree) -> Option<ElementType>
    ensures { result ≡ c.element_of t }
{
    match t {
        TypeTree::Scalar { of } => Some(ElementType::Scalar { of }),
        TypeTree::Vector { of, size } => Some(ElementType::Vector { of, size }),
        TypeTree::Struct { number } => Some(ElementType::Struct { number }),
        TypeTree::Array { .. } => None,
    }
}
