ghost use Rattle.std.specs.Prelude.{◌≡◌, ◌++◌, List, ℕ};
ghost use Rattle.std.specs.Option.{option_map};
ghost use Rattle.wg_script.specs.Numbers.{negative_of, hexadecimal_of, script_word, wide_negative_of, wide_number as wide_number_of, before_q as before_q_of, words_by, name_with_index, index_before_bracket, indexed_name};
ghost use Rattle.wg_text.specs.Refusals.{YieldsWith};

use wg_text::{Refusal, Separator, cut, is_identifier};
use wg_words::{Word, Words, sub, sub_64};

/// How a script's words may be written: line 1 says it.
#[derive(Clone, Copy, Debug)]
pub enum Version {
    /// Each gives one word.
    One,
    /// A number of 64 bits, before `q`, gives two.
    Two,
}

/// The word that `-` and a decimal number up to 2^31 give.
fn negative(digits: &[u8]) -> Option<Word>
    ensures { result ≡ negative_of digits.now }
{
    let value = wg_text::word(digits, 10)?;
    if value > 1 << 31 {
        return None;
    }
    Some(sub(0, value))
}

/// The word of one to eight hexadecimal digits.
fn hexadecimal(digits: &[u8]) -> Option<Word>
    ensures { result ≡ hexadecimal_of digits.now }
{
    if digits.len() > 8 {
        return None;
    }
    wg_text::word(digits, 16)
}

/// The word that a text gives: a decimal number, `-` and one up to 2^31, or `0x` and hexadecimal digits.
fn word(text: &[u8]) -> Option<Word>
    ensures { result ≡ script_word text.now }
{
    if let Some(digits) = text.strip_prefix(b"-") {
        return negative(digits);
    }
    if let Some(digits) = text.strip_prefix(b"0x") {
        return hexadecimal(digits);
    }
    wg_text::word(text, 10)
}

/// The number of 64 bits that `-` and a decimal number up to 2^63 give.
fn wide_negative(digits: &[u8]) -> Option<u64>
    ensures { result ≡ wide_negative_of digits.now }
{
    let value = wg_text::number(digits, 10)?;
    if value > 1 << 63 {
        return None;
    }
    Some(sub_64(0, value))
}

/// The number of 64 bits that a text gives: a decimal number, or `-` and one up to 2^63.
fn wide_number(text: &[u8]) -> Option<u64>
    ensures { result ≡ wide_number_of text.now }
{
    if let Some(digits) = text.strip_prefix(b"-") {
        return wide_negative(digits);
    }
    wg_text::number(text, 10)
}

/// What stands before `q`, in a version that has numbers of 64 bits.
fn before_q(version: Version, text: &[u8]) -> Option<&[u8]>
    ensures { option_map (λ r. r.now) result ≡ before_q_of version text.now }
{
    match version {
        Version::One => None,
        Version::Two => text.strip_suffix(b"q"),
    }
}

/// Adds the words that a text gives: two where `q` follows a number, the low one first, else one.
pub fn add_words(version: Version, text: &[u8], words: &mut Words) -> Result<(), Refusal>
    ensures { YieldsWith (λ _. words.new) result (option_map (λ (some : List ℕ). words.old ++ some) (words_by version text.now)) }
{
    let Some(number) = before_q(version, text) else {
        words.push(word(text).ok_or(Refusal::Form)?)?;
        return Ok(());
    };
    let number = wide_number(number).ok_or(Refusal::Form)?;
    words.push((number % (1 << 32)) as u32)?;
    words.push((number >> 32) as u32)?;
    Ok(())
}

fn named(name: &[u8], index: u32) -> Option<(&[u8], u32)>
    ensures { option_map (λ r. (r.0.now, r.1)) result ≡ name_with_index name.now (Some index) }
{
    if !is_identifier(name) {
        return None;
    }
    Some((name, index))
}

/// The index of a node that follows its name and `[`.
fn index(text: &[u8]) -> Option<u32>
    ensures { result ≡ index_before_bracket text.now }
{
    wg_text::word(text.strip_suffix(b"]")?, 10)
}

/// The name and the index of a node: `NAME[i]`, or `NAME` for the index 0.
pub fn target(text: &[u8]) -> Option<(&[u8], u32)>
    ensures { option_map (λ r. (r.0.now, r.1)) result ≡ indexed_name text.now }
{
    let Some((name, rest)) = cut(text, Separator::Byte(b'[')) else {
        return named(text, 0);
    };
    named(name, index(rest)?)
}
