//! The operators and bit calls of HLSL Shader Model 6.8 on `int` and `uint`.
//! Each is total. What a divisor 0 gives is this project's own rule.
ghost use Rattle.std.specs.Prelude.{◌≡◌};
ghost use Rattle.wg_words.specs.Words.{sum_of, difference, product_of, quotient_u, quotient_s, remainder_u, remainder_s, shifted_left, shifted_right_u, shifted_right_s, order_u, order_s, set_bits, first_bit_high, first_bit_low, reversed};

use crate::items::Word;
use std::cmp::Ordering;

/// `a + b`, modulo 2^32.
pub fn add(a: Word, b: Word) -> Word
    ensures { result ≡ sum_of 32 a b }
{
    a.wrapping_add(b)
}

/// `a - b`, modulo 2^32.
pub fn sub(a: Word, b: Word) -> Word
    ensures { result ≡ difference 32 a b }
{
    a.wrapping_sub(b)
}

/// `a * b`, modulo 2^32.
pub fn mul(a: Word, b: Word) -> Word
    ensures { result ≡ product_of 32 a b }
{
    a.wrapping_mul(b)
}

/// `a / b` of two `uint`. A divisor 0 gives `0xffffffff`.
pub fn div_u(a: Word, b: Word) -> Word
    ensures { result ≡ quotient_u 32 a b }
{
    if b == 0 { Word::MAX } else { a / b }
}

/// `a / b` of two `int`, rounded toward 0. A divisor 0 gives `0xffffffff`; the least `int` divided by -1 is itself.
pub fn div_s(a: Word, b: Word) -> Word
    ensures { result ≡ quotient_s 32 a b }
{
    if b == 0 {
        Word::MAX
    } else {
        let quotient = a.cast_signed().wrapping_div(b.cast_signed());
        quotient.cast_unsigned()
    }
}

/// `a % b` of two `uint`. A divisor 0 gives `0xffffffff`.
pub fn rem_u(a: Word, b: Word) -> Word
    ensures { result ≡ remainder_u 32 a b }
{
    if b == 0 { Word::MAX } else { a % b }
}

/// `a % b` of two `int`, which has the sign of `a`. A divisor 0 gives `0xffffffff`.
pub fn rem_s(a: Word, b: Word) -> Word
    ensures { result ≡ remainder_s 32 a b }
{
    if b == 0 {
        Word::MAX
    } else {
        let left = a.cast_signed().wrapping_rem(b.cast_signed());
        left.cast_unsigned()
    }
}

/// `a << b`, by the low five bits of `b`.
pub fn shl(a: Word, b: Word) -> Word
    ensures { result ≡ shifted_left 32 a b }
{
    a.wrapping_shl(b)
}

/// `a >> b` of a `uint`, by the low five bits of `b`.
pub fn shr_u(a: Word, b: Word) -> Word
    ensures { result ≡ shifted_right_u 32 a b }
{
    a.wrapping_shr(b)
}

/// `a >> b` of an `int`, which keeps its sign, by the low five bits of `b`.
pub fn shr_s(a: Word, b: Word) -> Word
    ensures { result ≡ shifted_right_s 32 a b }
{
    (a.cast_signed() >> (b % 32)).cast_unsigned()
}

/// The order of two `uint`.
pub fn cmp_u(a: Word, b: Word) -> Ordering
    ensures { result ≡ order_u a b }
{
    a.cmp(&b)
}

/// The order of two `int`.
pub fn cmp_s(a: Word, b: Word) -> Ordering
    ensures { result ≡ order_s 32 a b }
{
    a.cast_signed().cmp(&b.cast_signed())
}

/// How many bits are 1 (`countbits`).
pub fn count_bits(a: Word) -> Word
    ensures { result ≡ set_bits 32 a }
{
    a.count_ones()
}

/// The place of the highest bit that is 1, from the low end (`firstbithigh`), or `0xffffffff` for 0.
pub fn first_high(a: Word) -> Word
    ensures { result ≡ first_bit_high 32 a }
{
    if a == 0 {
        Word::MAX
    } else {
        31 - a.leading_zeros()
    }
}

/// The place of the lowest bit that is 1 (`firstbitlow`), or `0xffffffff` for 0.
pub fn first_low(a: Word) -> Word
    ensures { result ≡ first_bit_low 32 a }
{
    if a == 0 {
        Word::MAX
    } else {
        a.trailing_zeros()
    }
}

/// The bits in the reverse order (`reversebits`).
pub fn reverse(a: Word) -> Word
    ensures { result ≡ reversed 32 a }
{
    a.reverse_bits()
}
