ghost use Rattle.std.specs.Prelude.{◌≡◌, ◌≤◌, ◌<◌, ◌%◌, ◌^◌, if◌then◌else◌};
ghost use Rattle.wg_machine.specs.Buffers.{exchanged, signed_rank};
ghost use Rattle.wg_words.specs.Truth.{truth, is_less_order};
ghost use Rattle.wg_code.specs.Operators.{unary, binary, half};
ghost use Rattle.wg_code.specs.OpMeaning.{atomic_of};

use std::cmp::Ordering;
use wg_machine::Atomic;
use wg_words::{
    Word, add, add_16, add_64, cmp_s, cmp_s_16, cmp_s_64, count_bits, div_s, div_s_16, div_s_64,
    div_u, div_u_16, div_u_64, first_high, first_low, mul, mul_16, mul_64, rem_s, rem_s_16,
    rem_s_64, rem_u, rem_u_16, rem_u_64, reverse, shl, shl_16, shl_64, shr_s, shr_s_16, shr_s_64,
    shr_u, shr_u_16, shr_u_64, sub, sub_16, sub_64,
};

pub fn truth_word(b: bool) -> Word
    ensures { result ≡ truth b }
{
    if b { 1 } else { 0 }
}

fn is_less(order: Ordering) -> bool
    ensures { result ≡ is_less_order order }
{
    match order {
        Ordering::Less => true,
        Ordering::Equal | Ordering::Greater => false,
    }
}

/// An operator on one word, by its number.
pub fn prefix(op: u32, a: Word) -> Word
    ensures { result ≡ unary op a }
{
    match op {
        0 => Word::MAX - a,
        1 => count_bits(a),
        2 => first_high(a),
        3 => first_low(a),
        _ => reverse(a),
    }
}

/// An operator on two words, by its number.
#[inline(always)]
pub fn combine(op: u32, a: Word, b: Word) -> Word
    ensures { result ≡ binary 32 op a b }
{
    match op {
        0 => add(a, b),
        1 => sub(a, b),
        2 => mul(a, b),
        3 => div_u(a, b),
        4 => div_s(a, b),
        5 => rem_u(a, b),
        6 => rem_s(a, b),
        7 => shl(a, b),
        8 => shr_u(a, b),
        9 => shr_s(a, b),
        10 => a & b,
        11 => a | b,
        12 => a ^ b,
        13 => truth_word(a == b),
        14 => truth_word(a < b),
        _ => truth_word(is_less(cmp_s(a, b))),
    }
}

fn combine_16(op: u32, a: u16, b: u16) -> u16
    requires { op < 13 }
    ensures { result ≡ binary 16 op a b }
{
    match op {
        0 => add_16(a, b),
        1 => sub_16(a, b),
        2 => mul_16(a, b),
        3 => div_u_16(a, b),
        4 => div_s_16(a, b),
        5 => rem_u_16(a, b),
        6 => rem_s_16(a, b),
        7 => shl_16(a, b),
        8 => shr_u_16(a, b),
        9 => shr_s_16(a, b),
        10 => a & b,
        11 => a | b,
        _ => a ^ b,
    }
}

fn low_half(a: Word) -> u16
    ensures { result ≡ a % 2 ^ 16 }
{
    (a % 65_536) as u16
}

/// An operator on the low 16 bits of two words, by its number.
pub fn combine_halves(op: u32, a: Word, b: Word) -> Word
    ensures { result ≡ half op a b }
{
    let a = low_half(a);
    let b = low_half(b);
    match op {
        13 => truth_word(a == b),
        14 => truth_word(a < b),
        0..=12 => Word::from(combine_16(op, a, b)),
        _ => truth_word(is_less(cmp_s_16(a, b))),
    }
}

/// An operator on two numbers of 64 bits that is no comparison, by its number.
pub fn combine_64(op: u32, a: u64, b: u64) -> u64
    requires { op < 13 }
    ensures { result ≡ binary 64 op a b }
{
    match op {
        0 => add_64(a, b),
        1 => sub_64(a, b),
        2 => mul_64(a, b),
        3 => div_u_64(a, b),
        4 => div_s_64(a, b),
        5 => rem_u_64(a, b),
        6 => rem_s_64(a, b),
        7 => shl_64(a, b),
        8 => shr_u_64(a, b),
        9 => shr_s_64(a, b),
        10 => a & b,
        11 => a | b,
        _ => a ^ b,
    }
}

/// A comparison of two numbers of 64 bits, by its number.
pub fn compare_64(op: u32, a: u64, b: u64) -> Word
    requires { 13 ≤ op }
    ensures { result ≡ binary 64 op a b }
{
    match op {
        13 => truth_word(a == b),
        14 => truth_word(a < b),
        _ => truth_word(is_less(cmp_s_64(a, b))),
    }
}

/// An interlocked form by its number.
pub fn interlocked_form(op: u32) -> Atomic
    ensures { result ≡ atomic_of op }
{
    match op {
        0 => Atomic::Min,
        1 => Atomic::MinSigned,
        2 => Atomic::Max,
        3 => Atomic::MaxSigned,
        4 => Atomic::And,
        5 => Atomic::Or,
        6 => Atomic::Xor,
        7 => Atomic::Add,
        8 => Atomic::Exchange,
        _ => Atomic::CompareExchange,
    }
}

fn rank(a: Word) -> Word
    ensures { result ≡ signed_rank a }
{
    a.wrapping_add(2_147_483_648)
}

fn choose(takes: bool, value: Word, old: Word) -> Word
    ensures { result ≡ (if takes then value else old) }
{
    if takes { value } else { old }
}

/// What an interlocked form leaves in place of an old word, by the form's number.
pub fn exchange(op: u32, old: Word, compare: Word, value: Word) -> Word
    ensures { result ≡ exchanged (atomic_of op) old compare value }
{
    match interlocked_form(op) {
        Atomic::Min => old.min(value),
        Atomic::MinSigned => choose(rank(value) < rank(old), value, old),
        Atomic::Max => old.max(value),
        Atomic::MaxSigned => choose(rank(old) < rank(value), value, old),
        Atomic::And => old & value,
        Atomic::Or => old | value,
        Atomic::Xor => old ^ value,
        Atomic::Add => old.wrapping_add(value),
        Atomic::Exchange => value,
        Atomic::CompareExchange => choose(old == compare, value, old),
    }
}
