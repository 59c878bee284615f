//! The operators of HLSL on words of 16 bits. Each is total. What a divisor 0 gives is this project's own rule.
ghost use Rattle.std.specs.Prelude.{◌≡◌};
ghost use Rattle.wg_words.specs.Words.{sum_of, difference, product_of, quotient_u, quotient_s, remainder_u, remainder_s, shifted_left, shifted_right_u, shifted_right_s, order_u, order_s};

use std::cmp::Ordering;

/// `a + b`, modulo 2^16.
pub fn add_16(a: u16, b: u16) -> u16
    ensures { result ≡ sum_of 16 a b }
{
    a.wrapping_add(b)
}

/// `a - b`, modulo 2^16.
pub fn sub_16(a: u16, b: u16) -> u16
    ensures { result ≡ difference 16 a b }
{
    a.wrapping_sub(b)
}

/// `a * b`, modulo 2^16.
pub fn mul_16(a: u16, b: u16) -> u16
    ensures { result ≡ product_of 16 a b }
{
    a.wrapping_mul(b)
}

/// `a / b` of two `uint16_t`. A divisor 0 gives the word of all ones.
pub fn div_u_16(a: u16, b: u16) -> u16
    ensures { result ≡ quotient_u 16 a b }
{
    if b == 0 { u16::MAX } else { a / b }
}

/// `a / b` of two `int16_t`, rounded toward 0. A divisor 0 gives the word of all ones; the least number divided by -1 is itself.
pub fn div_s_16(a: u16, b: u16) -> u16
    ensures { result ≡ quotient_s 16 a b }
{
    if b == 0 {
        u16::MAX
    } else {
        let quotient = a.cast_signed().wrapping_div(b.cast_signed());
        quotient.cast_unsigned()
    }
}

/// `a % b` of two `uint16_t`. A divisor 0 gives the word of all ones.
pub fn rem_u_16(a: u16, b: u16) -> u16
    ensures { result ≡ remainder_u 16 a b }
{
    if b == 0 { u16::MAX } else { a % b }
}

/// `a % b` of two `int16_t`, which has the sign of `a`. A divisor 0 gives the word of all ones.
pub fn rem_s_16(a: u16, b: u16) -> u16
    ensures { result ≡ remainder_s 16 a b }
{
    if b == 0 {
        u16::MAX
    } else {
        let left = a.cast_signed().wrapping_rem(b.cast_signed());
        left.cast_unsigned()
    }
}

/// `a << b`, by the low four bits of `b`.
pub fn shl_16(a: u16, b: u16) -> u16
    ensures { result ≡ shifted_left 16 a b }
{
    a << (b % 16)
}

/// `a >> b` of a `uint16_t`, by the low four bits of `b`.
pub fn shr_u_16(a: u16, b: u16) -> u16
    ensures { result ≡ shifted_right_u 16 a b }
{
    a >> (b % 16)
}

/// `a >> b` of an `int16_t`, which keeps its sign, by the low four bits of `b`.
pub fn shr_s_16(a: u16, b: u16) -> u16
    ensures { result ≡ shifted_right_s 16 a b }
{
    (a.cast_signed() >> (b % 16)).cast_unsigned()
}

/// The order of two `uint16_t`.
pub fn cmp_u_16(a: u16, b: u16) -> Ordering
    ensures { result ≡ order_u a b }
{
    a.cmp(&b)
}

/// The order of two `int16_t`.
pub fn cmp_s_16(a: u16, b: u16) -> Ordering
    ensures { result ≡ order_s 16 a b }
{
    a.cast_signed().cmp(&b.cast_signed())
}
