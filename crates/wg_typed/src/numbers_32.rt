//! The operators of HLSL on numbers of 32 bits, each by the calls of wg_words.
ghost use Rattle.std.specs.Prelude.{◌≡◌, ◌%◌, ◌^◌, if◌then◌else◌};
ghost use Rattle.wg_typed.specs.Operators.{is_less_in, combined_in, prefixed_in, is_shift};
ghost use Rattle.wg_words.specs.Truth.{truth};
ghost use Rattle.wg_words.specs.Words.{quotient_s, quotient_u, remainder_s, remainder_u, shifted_right_s, shifted_right_u};

use std::cmp::Ordering;
use wg_tree::{BinaryOperator, PrefixOperator};
use wg_words::{add, cmp_s, cmp_u, div_s, div_u, mul, rem_s, rem_u, shl, shr_s, shr_u, sub};

fn truth_of(value: bool) -> u32
    ensures { result ≡ truth value }
{
    u32::from(value)
}

fn is_below(signed: bool, a: u32, b: u32) -> bool
    ensures { result ≡ is_less_in 32 signed a b }
{
    let order = if signed { cmp_s(a, b) } else { cmp_u(a, b) };
    matches!(order, Ordering::Less)
}

fn quotient(signed: bool, a: u32, b: u32) -> u32
    ensures { result ≡ if signed then quotient_s 32 a b else quotient_u 32 a b }
{
    if signed { div_s(a, b) } else { div_u(a, b) }
}

fn remainder(signed: bool, a: u32, b: u32) -> u32
    ensures { result ≡ if signed then remainder_s 32 a b else remainder_u 32 a b }
{
    if signed { rem_s(a, b) } else { rem_u(a, b) }
}

fn shift_right(signed: bool, a: u32, b: u32) -> u32
    ensures { result ≡ if signed then shifted_right_s 32 a b else shifted_right_u 32 a b }
{
    if signed { shr_s(a, b) } else { shr_u(a, b) }
}

/// A prefix operator on a number of 32 bits.
pub fn prefix_32(operator: PrefixOperator, a: u32) -> u32
    ensures { result ≡ prefixed_in operator 32 a }
{
    match operator {
        PrefixOperator::Minus => sub(0, a),
        PrefixOperator::Plus => a,
        PrefixOperator::Not => truth_of(a == 0),
        PrefixOperator::Complement => !a,
    }
}

/// A two-sided operator on two numbers of 32 bits.
pub fn combine_32(operator: BinaryOperator, signed: bool, a: u32, b: u32) -> u32
    ensures { result ≡ combined_in operator 32 signed a b }
{
    match operator {
        BinaryOperator::Multiply => mul(a, b),
        BinaryOperator::Divide => quotient(signed, a, b),
        BinaryOperator::Remainder => remainder(signed, a, b),
        BinaryOperator::Add => add(a, b),
        BinaryOperator::Subtract => sub(a, b),
        BinaryOperator::ShiftLeft => shl(a, b),
        BinaryOperator::ShiftRight => shift_right(signed, a, b),
        BinaryOperator::Less => truth_of(is_below(signed, a, b)),
        BinaryOperator::Greater => truth_of(is_below(signed, b, a)),
        BinaryOperator::AtMost => truth_of(!is_below(signed, b, a)),
        BinaryOperator::AtLeast => truth_of(!is_below(signed, a, b)),
        BinaryOperator::Equal => truth_of(a == b),
        BinaryOperator::NotEqual => truth_of(a != b),
        BinaryOperator::BitAnd => a & b,
        BinaryOperator::BitXor => a ^ b,
        BinaryOperator::BitOr => a | b,
        BinaryOperator::And => truth_of(a != 0 && b != 0),
        BinaryOperator::Or => truth_of(a != 0 || b != 0),
    }
}
