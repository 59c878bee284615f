ghost use Rattle.std.specs.Prelude.{◌≡◌, ◌≢◌, ◌↔◌, ◌+◌, ◌<◌, ◌≤◌, ◌^◌, ◌++◌, length, List, ℕ, IsTrue, IfOk, IfSome, IfNone};
ghost use Rattle.std.specs.Fmt.{decimal};
ghost use Rattle.wg_tool.specs.Parts.{is_name, ends_name, ends_number, lower_length, value_from};

use std::alloc::{AllocError, Global};

/// What follows a prefix.
pub fn strip<'a>(bytes: &'a [u8], prefix: &[u8]) -> Option<&'a [u8]>
    ensures found { IfSome result (λ rest. bytes.now ≡ prefix.now ++ rest.now) }
    ensures none { IfNone result ((rest : List ℕ) → bytes.now ≢ prefix.now ++ rest) }
{
    bytes.strip_prefix(prefix)
}

/// How many lower-case letters the bytes begin with.
fn lower_letters(bytes: &[u8]) -> usize
    ensures is { result ≡ lower_length bytes.now }
    ensures within { result ≤ length bytes.now }
{
    for (place, byte) in bytes.iter().enumerate() {
        if !byte.is_ascii_lowercase() {
            return place;
        }
    }
    bytes.len()
}

/// A name that no further lower-case letter continues, and what follows it.
pub fn read_name(bytes: &[u8]) -> Option<(&[u8], &[u8])>
    ensures found { IfSome result (λ x. IsTrue (is_name x.0.now) × (bytes.now ≡ x.0.now ++ x.1.now)) }
    ensures ends { IfSome result (λ x. IsTrue (ends_name x.1.now)) }
    ensures none { IfNone result ((name more : List ℕ) → IsTrue (is_name name) → IsTrue (ends_name more) → bytes.now ≢ name ++ more) }
{
    let (first, rest) = bytes.split_first()?;
    let letters = lower_letters(rest);
    if !first.is_ascii_uppercase() || letters == 0 {
        return None;
    }
    Some(bytes.split_at(1 + letters))
}

/// The number that digits begin, as far as it stays near 32 bits.
fn value_of(bytes: &[u8]) -> u64
    ensures { result ≡ value_from 0 bytes.now }
{
    let mut value = 0u64;
    for byte in bytes {
        if !byte.is_ascii_digit() {
            return value;
        }
        if value < 1 << 32 {
            value = value * 10 + u64::from(*byte - b'0');
        }
    }
    value
}

/// A decimal word without a leading zero that no further digit continues, and what follows it.
pub fn read_word<'a>(alloc: Global, bytes: &'a [u8]) -> Result<Option<(u32, &'a [u8])>, AllocError>
    ensures found { IfOk result (λ o. IfSome o (λ x. bytes.now ≡ decimal x.0 ++ x.1.now)) }
    ensures only { IfOk result (λ o. IfSome o (λ x. (word : ℕ) (more : List ℕ) → word < 2 ^ 32 → IsTrue (ends_number more) → bytes.now ≡ decimal word ++ more → word ≡ x.0)) }
    ensures none { IfOk result (λ o. IfNone o ((word : ℕ) (more : List ℕ) → word < 2 ^ 32 → IsTrue (ends_number more) → bytes.now ≢ decimal word ++ more)) }
{
    let value = value_of(bytes);
    if value >= 1 << 32 {
        return Ok(None);
    }
    let text = value.to_string(alloc)?;
    let Some(rest) = strip(bytes, text.as_bytes()) else {
        return Ok(None);
    };
    Ok(Some((value as u32, rest)))
}
