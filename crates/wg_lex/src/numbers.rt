//! Numbers.
ghost use Rattle.std.specs.Prelude.{◌≡◌, ◌^◌, ◌<◌, ◌≤◌, length, IfSome, IfNone, slice_index, true};
ghost use Rattle.wg_words.specs.Characters as letters;
ghost use Rattle.wg_tokens.specs.Characters as class;
ghost use Rattle.wg_tokens.specs.Spelling as spelling;
ghost use Rattle.wg_lex.specs.Numerals.{IsLongestSuffix, IsNumeral, IsSuffixed, begins_hexadecimal};

use crate::characters::{digits_len, hex_digits_len, is_digit, is_hex_digit};
use crate::slices::{after, byte};

/// What stands after the digits of a number, and how many bytes it has.
#[derive(Clone, Copy, Debug, PartialEq, Eq)]
pub struct Suffix {
    pub unsigned: bool,
    pub long: bool,
    pub size: usize,
}

/// A number at the front of a text.
#[derive(Clone, Copy, Debug, PartialEq, Eq)]
pub struct Numeral {
    /// `None` where it has more than 64 bits.
    pub value: Option<u64>,
    pub suffix: Suffix,
    /// In bytes, with its prefix and its suffix.
    pub size: usize,
}

fn digit_value(b: u8) -> u64
    ensures { result ≡ class.digit_value b }
{
    let value = if is_digit(b) {
        b - b'0'
    } else if b'a' <= b {
        b - (b'a' - 10)
    } else {
        b.saturating_sub(b'A' - 10)
    };
    u64::from(value)
}

/// What digits are worth, or `None` where that has more than 64 bits.
fn value_of(digits: &[u8], base: u64) -> Option<u64>
    requires { 0 < base }
    ensures value { IfSome result (λ value. value ≡ spelling.worth base digits.now) }
    ensures wide { IfNone result (2 ^ 64 ≤ spelling.worth base digits.now) }
{
    let mut value: u64 = 0;
    for b in digits {
        value = value.checked_mul(base)?.checked_add(digit_value(*b))?;
    }
    Some(value)
}

fn is_unsigned_letter(b: u8) -> bool
    ensures { result ≡ spelling.is_unsigned_letter b }
{
    b == b'u' || b == b'U'
}

fn is_long_letter(b: u8) -> bool
    ensures { result ≡ spelling.is_long_letter b }
{
    b == b'l' || b == b'L'
}

/// The longest suffix that a text begins with.
fn suffix_of(text: &[u8]) -> Suffix
    ensures { IsLongestSuffix text.now result }
{
    let (first, second) = (byte(text, 0), byte(text, 1));
    let unsigned = is_unsigned_letter(first) | (is_long_letter(first) & is_unsigned_letter(second));
    let long = is_long_letter(first) | (is_unsigned_letter(first) & is_long_letter(second));
    Suffix {
        unsigned,
        long,
        size: usize::from(unsigned) + usize::from(long),
    }
}

/// The number that a text begins with: so many digits, and their suffix.
fn suffixed(text: &[u8], count: usize, base: u64) -> Numeral
    requires positive { 0 < base }
    requires within { count ≤ length text.now }
    ensures { IsSuffixed text.now count base result }
{
    let (digits, rest) = text.split_at(count);
    let suffix = suffix_of(rest);
    Numeral {
        value: value_of(digits, base),
        suffix,
        size: count + suffix.size,
    }
}

#[tactic(auto, using(crate::proofs::NumberSizes::hexadecimal_test))]
fn is_hexadecimal(text: &[u8]) -> bool
    ensures { result ≡ begins_hexadecimal text.now }
{
    let x = byte(text, 1);
    byte(text, 0) == b'0' && (x == b'x' || x == b'X') && is_hex_digit(byte(text, 2))
}

/// The number that a text begins with.
pub fn scan_number(text: &[u8]) -> Numeral
    requires { letters.is_digit (slice_index text.now 0) ≡ true }
    ensures { IsNumeral text.now result }
{
    if is_hexadecimal(text) {
        let digits = after(text, 2);
        let numeral = suffixed(digits, hex_digits_len(digits), 16);
        Numeral {
            value: numeral.value,
            suffix: numeral.suffix,
            size: numeral.size + 2,
        }
    } else {
        suffixed(text, digits_len(text), 10)
    }
}
