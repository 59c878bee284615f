ghost use Rattle.std.specs.Prelude.{◌≡◌, ◌≤◌, ◌^◌};
ghost use Rattle.wg_text.specs.Numbers.{number_below, printed_number};

/// The number below 2^64 that digits of a base make. Zeros may stand in front, a sign may not.
pub fn number(text: &[u8], base: u32) -> Option<u64>
    requires low { 2 ≤ base }
    requires high { base ≤ 36 }
    ensures { result ≡ number_below (2 ^ 64) base text.now }
{
    if text.starts_with(b"+") {
        return None;
    }
    let text = str::from_utf8(text).ok()?;
    u64::from_str_radix(text, base).ok()
}

/// The number below 2^32 that digits of a base make.
pub fn word(text: &[u8], base: u32) -> Option<u32>
    requires low { 2 ≤ base }
    requires high { base ≤ 36 }
    ensures { result ≡ number_below (2 ^ 32) base text.now }
{
    u32::try_from(number(text, base)?).ok()
}

/// The number below 2^64 whose decimal text this is: no zero stands in front.
pub fn printed(text: &[u8]) -> Option<u64>
    ensures { result ≡ printed_number text.now }
{
    if text.len() > 1 && text[0] == b'0' {
        return None;
    }
    number(text, 10)
}
