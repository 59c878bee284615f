//! The operators of HLSL on numbers of 16 bits, each by the calls of wg_words.
ghost use Rattle.std.specs.Prelude.{◌≡◌, ◌%◌, ◌^◌, if◌then◌else◌};
ghost use Rattle.wg_typed.specs.Operators.{is_less_in, combined_in, prefixed_in, is_shift};
ghost use Rattle.wg_words.specs.Truth.{truth};
ghost use Rattle.wg_words.specs.Words.{quotient_s, quotient_u, remainder_s, remainder_u, shifted_right_s, shifted_right_u};

use std::cmp::Ordering;
use wg_tree::{BinaryOperator, PrefixOperator};
use wg_words::{
    add_16, cmp_s_16, cmp_u_16, div_s_16, div_u_16, mul_16, rem_s_16, rem_u_16, shl_16, shr_s_16,
    shr_u_16, sub_16,
};

fn truth_of(value: bool) -> u16
    ensures { result ≡ truth value }
{
    u16::from(value)
}

fn is_below(signed: bool, a: u16, b: u16) -> bool
    ensures { result ≡ is_less_in 16 signed a b }
{
    let order = if signed {
        cmp_s_16(a, b)
    } else {
        cmp_u_16(a, b)
    };
    matches!(order, Ordering::Less)
}

fn quotient(signed: bool, a: u16, b: u16) -> u16
    ensures { result ≡ if signed then quotient_s 16 a b else quotient_u 16 a b }
{
    if signed {
        div_s_16(a, b)
    } else {
        div_u_16(a, b)
    }
}

fn remainder(signed: bool, a: u16, b: u16) -> u16
    ensures { result ≡ if signed then remainder_s 16 a b else remainder_u 16 a b }
{
    if signed {
        rem_s_16(a, b)
    } else {
        rem_u_16(a, b)
    }
}

fn shift_right(signed: bool, a: u16, b: u16) -> u16
    ensures { result ≡ if signed then shifted_right_s 16 a b else shifted_right_u 16 a b }
{
    if signed {
        shr_s_16(a, b)
    } else {
        shr_u_16(a, b)
    }
}

/// A prefix operator on a number of 16 bits.
pub fn prefix_16(operator: PrefixOperator, a: u16) -> u16
    ensures { result ≡ prefixed_in operator 16 a }
{
    match operator {
        PrefixOperator::Minus => sub_16(0, a),
        PrefixOperator::Plus => a,
        PrefixOperator::Not => truth_of(a == 0),
        PrefixOperator::Complement => !a,
    }
}

/// A two-sided operator on two numbers of 16 bits.
pub fn combine_16(operator: BinaryOperator, signed: bool, a: u16, b: u16) -> u16
    ensures { result ≡ combined_in operator 16 signed a b }
{
    match operator {
        BinaryOperator::Multiply => mul_16(a, b),
        BinaryOperator::Divide => quotient(signed, a, b),
        BinaryOperator::Remainder => remainder(signed, a, b),
        BinaryOperator::Add => add_16(a, b),
        BinaryOperator::Subtract => sub_16(a, b),
        BinaryOperator::ShiftLeft => shl_16(a, b),
        BinaryOperator::ShiftRight => shift_right(signed, a, b),
        BinaryOperator::Less => truth_of(is_below(signed, a, b)),
        BinaryOperator::Greater => truth_of(is_below(signed, b, a)),
        BinaryOperator::AtMost => truth_of(!is_below(signed, b, a)),
        BinaryOperator::AtLeast => truth_of(!is_below(signed, a, b)),
        BinaryOperator::Equal => truth_of(a == b),
        BinaryOperator::NotEqual => truth_of(a != b),
        BinaryOperator::BitAnd => a & b,
        BinaryOperator::BitXor => a ^ b,
        BinaryOperator::BitOr => a | b,
        BinaryOperator::And => truth_of(a != 0 && b != 0),
        BinaryOperator::Or => truth_of(a != 0 || b != 0),
    }
}
