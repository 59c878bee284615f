//! Constants as numbers of their scalars, and the operators on them.
ghost use Rattle.std.specs.Prelude.{◌≡◌};
ghost use Rattle.wg_typed.specs.Operators.{gives_truth, is_shift, literal_scalar};
ghost use Rattle.wg_typed.specs.Constants.{const_scalar, const_number, constant_of, number_as, const_as, literal, reckoned_in, applied, prefix_scalar, prefixed_constant, chosen};

use crate::numbers::{combine_number, convert_number, prefix_number};
use crate::scalars::{bits_of, counted, has_sign, integer, wider};
use crate::types::ConstValue;
use wg_tree::{BinaryOperator, PrefixOperator, Scalar};

/// The scalar of a number as it is written, with its suffixes `u` and `l`.
pub fn scalar_of_literal(value: u64, unsigned: bool, long: bool) -> Scalar
    ensures { result ≡ literal_scalar value unsigned long }
{
    if long || value >= 0x1_0000_0000 {
        integer(64, !unsigned && value < 0x8000_0000_0000_0000)
    } else {
        integer(32, !unsigned && value < 0x8000_0000)
    }
}

/// A number of a scalar as a constant; a `bool` counts as `int`.
fn constant(s: Scalar, n: u64) -> ConstValue
    ensures { result ≡ constant_of s n }
{
    ConstValue {
        value: n,
        signed: has_sign(s) || matches!(s, Scalar::Bool),
        bits: bits_of(s),
    }
}

/// A number as it is written.
pub(crate) fn literal_value(value: u64, unsigned: bool, long: bool) -> ConstValue
    ensures { result ≡ literal value unsigned long }
{
    constant(scalar_of_literal(value, unsigned, long), value)
}

fn scalar(c: ConstValue) -> Scalar
    ensures { result ≡ const_scalar c }
{
    integer(c.bits, c.signed)
}

/// A constant's number in its scalar.
fn number(c: ConstValue) -> u64
    ensures { result ≡ const_number c }
{
    match scalar(c) {
        Scalar::Int16 | Scalar::Uint16 => c.value % 0x1_0000,
        Scalar::Bool | Scalar::Int | Scalar::Uint => c.value % 0x1_0000_0000,
        Scalar::Int64 | Scalar::Uint64 => c.value,
    }
}

/// A constant's number as one of a scalar.
#[tactic(auto, using(crate::proofs::Conversions::number_below))]
pub fn convert_constant(to: Scalar, c: ConstValue) -> u64
    ensures { result ≡ number_as to c }
{
    convert_number(scalar(c), to, number(c))
}

/// A constant that is declared with the scalar.
pub fn declare_constant(of: Scalar, c: ConstValue) -> ConstValue
    ensures { result ≡ const_as of c }
{
    constant(of, convert_constant(of, c))
}

fn is_truth(operator: BinaryOperator) -> bool
    ensures { result ≡ gives_truth operator }
{
    matches!(
        operator,
        BinaryOperator::Less
            | BinaryOperator::Greater
            | BinaryOperator::AtMost
            | BinaryOperator::AtLeast
            | BinaryOperator::Equal
            | BinaryOperator::NotEqual
            | BinaryOperator::And
            | BinaryOperator::Or
    )
}

fn reckons_in(operator: BinaryOperator, a: ConstValue, b: ConstValue) -> Scalar
    ensures { result ≡ reckoned_in operator a b }
{
    match operator {
        BinaryOperator::ShiftLeft | BinaryOperator::ShiftRight => scalar(a),
        _ => wider(scalar(a), scalar(b)),
    }
}

/// A two-sided operator on two constants.
#[tactic(auto, using(crate::proofs::Conversions::converted_below))]
pub(crate) fn apply(operator: BinaryOperator, a: ConstValue, b: ConstValue) -> ConstValue
    ensures { result ≡ applied operator a b }
{
    let of = reckons_in(operator, a, b);
    let value = combine_number(
        operator,
        of,
        convert_constant(of, a),
        convert_constant(of, b),
    );
    constant(if is_truth(operator) { Scalar::Int } else { of }, value)
}

/// A prefix operator on a constant.
#[tactic(auto, using(crate::proofs::Conversions::number_below))]
pub(crate) fn apply_prefix(operator: PrefixOperator, a: ConstValue) -> ConstValue
    ensures { result ≡ prefixed_constant operator a }
{
    let of = scalar(a);
    let value = prefix_number(operator, of, number(a));
    match operator {
        PrefixOperator::Not => constant(Scalar::Int, value),
        PrefixOperator::Minus | PrefixOperator::Plus | PrefixOperator::Complement => {
            constant(of, value)
        }
    }
}

pub(crate) fn choose(test: ConstValue, a: ConstValue, b: ConstValue) -> ConstValue
    ensures { result ≡ chosen test a b }
{
    let of = wider(scalar(a), scalar(b));
    declare_constant(of, if number(test) != 0 { a } else { b })
}
