//! Conversions and operators on numbers of any scalar, which are below 2 to their width.
ghost use Rattle.std.specs.Prelude.{◌≡◌, ◌<◌, ◌^◌};
ghost use Rattle.wg_typed.specs.Operators.{width_of, is_signed, whole_of, converted_number, combined, prefixed};
ghost use Rattle.wg_words.specs.Words.{wrapped};

use crate::numbers_16::{combine_16, prefix_16};
use crate::numbers_32::{combine_32, prefix_32};
use crate::numbers_64::{combine_64, prefix_64};
use wg_tree::{BinaryOperator, PrefixOperator, Scalar};

/// The number of 64 bits that is equal to a scalar's number modulo 2^64.
fn extend(from: Scalar, n: u64) -> u64
    requires bound { n < 2 ^ width_of from }
    ensures { result ≡ wrapped 64 (whole_of from n) }
{
    match from {
        Scalar::Bool | Scalar::Uint | Scalar::Uint16 | Scalar::Int64 | Scalar::Uint64 => n,
        Scalar::Int16 => i64::from((n as u16).cast_signed()).cast_unsigned(),
        Scalar::Int => i64::from((n as u32).cast_signed()).cast_unsigned(),
    }
}

/// A number of one scalar as one of another.
pub fn convert_number(from: Scalar, to: Scalar, n: u64) -> u64
    requires bound { n < 2 ^ width_of from }
    ensures { result ≡ converted_number from to n }
{
    match to {
        Scalar::Bool => u64::from(n != 0),
        Scalar::Int | Scalar::Uint => extend(from, n) % 0x1_0000_0000,
        Scalar::Int16 | Scalar::Uint16 => extend(from, n) % 0x1_0000,
        Scalar::Int64 | Scalar::Uint64 => extend(from, n),
    }
}

/// A two-sided operator on two numbers of a scalar.
pub fn combine_number(operator: BinaryOperator, of: Scalar, a: u64, b: u64) -> u64
    requires left { a < 2 ^ width_of of }
    requires right { b < 2 ^ width_of of }
    ensures { result ≡ combined operator of a b }
{
    match of {
        Scalar::Bool | Scalar::Uint => u64::from(combine_32(operator, false, a as u32, b as u32)),
        Scalar::Int => u64::from(combine_32(operator, true, a as u32, b as u32)),
        Scalar::Int16 => u64::from(combine_16(operator, true, a as u16, b as u16)),
        Scalar::Uint16 => u64::from(combine_16(operator, false, a as u16, b as u16)),
        Scalar::Int64 => combine_64(operator, true, a, b),
        Scalar::Uint64 => combine_64(operator, false, a, b),
    }
}

/// A prefix operator on a number of a scalar.
pub fn prefix_number(operator: PrefixOperator, of: Scalar, a: u64) -> u64
    requires bound { a < 2 ^ width_of of }
    ensures { result ≡ prefixed operator of a }
{
    match of {
        Scalar::Bool | Scalar::Int | Scalar::Uint => u64::from(prefix_32(operator, a as u32)),
        Scalar::Int16 | Scalar::Uint16 => u64::from(prefix_16(operator, a as u16)),
        Scalar::Int64 | Scalar::Uint64 => prefix_64(operator, a),
    }
}
