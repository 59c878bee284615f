//! The operators of HLSL on words of 64 bits. Each is total. What a divisor 0 gives is this project's own rule.
ghost use Rattle.std.specs.Prelude.{◌≡◌};
ghost use Rattle.wg_words.specs.Words.{sum_of, difference, product_of, quotient_u, quotient_s, remainder_u, remainder_s, shifted_left, shifted_right_u, shifted_right_s, order_u, order_s};

use std::cmp::Ordering;

/// `a + b`, modulo 2^64.
pub fn add_64(a: u64, b: u64) -> u64
    ensures { result ≡ sum_of 64 a b }
{
    a.wrapping_add(b)
}

/// `a - b`, modulo 2^64.
pub fn sub_64(a: u64, b: u64) -> u64
    ensures { result ≡ difference 64 a b }
{
    a.wrapping_sub(b)
}

/// `a * b`, modulo 2^64.
pub fn mul_64(a: u64, b: u64) -> u64
    ensures { result ≡ product_of 64 a b }
{
    a.wrapping_mul(b)
}

/// `a / b` of two `uint64_t`. A divisor 0 gives the word of all ones.
pub fn div_u_64(a: u64, b: u64) -> u64
    ensures { result ≡ quotient_u 64 a b }
{
    if b == 0 { u64::MAX } else { a / b }
}

/// `a / b` of two `int64_t`, rounded toward 0. A divisor 0 gives the word of all ones; the least number divided by -1 is itself.
pub fn div_s_64(a: u64, b: u64) -> u64
    ensures { result ≡ quotient_s 64 a b }
{
    if b == 0 {
        u64::MAX
    } else {
        let quotient = a.cast_signed().wrapping_div(b.cast_signed());
        quotient.cast_unsigned()
    }
}

/// `a % b` of two `uint64_t`. A divisor 0 gives the word of all ones.
pub fn rem_u_64(a: u64, b: u64) -> u64
    ensures { result ≡ remainder_u 64 a b }
{
    if b == 0 { u64::MAX } else { a % b }
}

/// `a % b` of two `int64_t`, which has the sign of `a`. A divisor 0 gives the word of all ones.
pub fn rem_s_64(a: u64, b: u64) -> u64
    ensures { result ≡ remainder_s 64 a b }
{
    if b == 0 {
        u64::MAX
    } else {
        let left = a.cast_signed().wrapping_rem(b.cast_signed());
        left.cast_unsigned()
    }
}

/// `a << b`, by the low six bits of `b`.
pub fn shl_64(a: u64, b: u64) -> u64
    ensures { result ≡ shifted_left 64 a b }
{
    a << (b % 64)
}

/// `a >> b` of a `uint64_t`, by the low six bits of `b`.
pub fn shr_u_64(a: u64, b: u64) -> u64
    ensures { result ≡ shifted_right_u 64 a b }
{
    a >> (b % 64)
}

/// `a >> b` of an `int64_t`, which keeps its sign, by the low six bits of `b`.
pub fn shr_s_64(a: u64, b: u64) -> u64
    ensures { result ≡ shifted_right_s 64 a b }
{
    (a.cast_signed() >> (b % 64)).cast_unsigned()
}

/// The order of two `uint64_t`.
pub fn cmp_u_64(a: u64, b: u64) -> Ordering
    ensures { result ≡ order_u a b }
{
    a.cmp(&b)
}

/// The order of two `int64_t`.
pub fn cmp_s_64(a: u64, b: u64) -> Ordering
    ensures { result ≡ order_s 64 a b }
{
    a.cast_signed().cmp(&b.cast_signed())
}
