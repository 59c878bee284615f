//! The bytes of a text by their use, and how far runs of them go.
ghost use Rattle.std.specs.Prelude.{◌≡◌, ◌≤◌, length, not};
ghost use Rattle.std.specs.List.{prefix_len};
ghost use Rattle.wg_words.specs.Characters as letters;
ghost use Rattle.wg_tokens.specs.Characters as class;
ghost use Rattle.wg_tokens.specs.Spelling as spelling;

pub fn is_blank(b: u8) -> bool
    ensures { result ≡ class.is_blank b }
{
    b == b' ' || b == b'\t' || b == b'\r' || b == b'\n'
}

pub fn is_letter(b: u8) -> bool
    ensures { result ≡ letters.is_letter b }
{
    (b'a' <= b && b <= b'z') || (b'A' <= b && b <= b'Z') || b == b'_'
}

pub fn is_digit(b: u8) -> bool
    ensures { result ≡ letters.is_digit b }
{
    b'0' <= b && b <= b'9'
}

pub fn is_hex_digit(b: u8) -> bool
    ensures { result ≡ class.is_hex_digit b }
{
    is_digit(b) || (b'a' <= b && b <= b'f') || (b'A' <= b && b <= b'F')
}

fn is_word(b: u8) -> bool
    ensures { result ≡ letters.is_word b }
{
    is_letter(b) || is_digit(b)
}

fn is_text_byte(b: u8) -> bool
    ensures { result ≡ class.is_text_byte b }
{
    b' ' <= b && b <= b'~' && b != b'"' && b != b'\\'
}

/// How many letters, digits and `_` a text begins with.
pub fn word_len(text: &[u8]) -> usize
    ensures count { result ≡ prefix_len letters.is_word text.now }
    ensures within { result ≤ length text.now }
{
    text.iter().take_while(|b| is_word(**b)).count()
}

/// How many decimal digits a text begins with.
pub fn digits_len(text: &[u8]) -> usize
    ensures count { result ≡ prefix_len letters.is_digit text.now }
    ensures within { result ≤ length text.now }
{
    text.iter().take_while(|b| is_digit(**b)).count()
}

/// How many hexadecimal digits a text begins with.
pub fn hex_digits_len(text: &[u8]) -> usize
    ensures count { result ≡ prefix_len class.is_hex_digit text.now }
    ensures within { result ≤ length text.now }
{
    text.iter().take_while(|b| is_hex_digit(**b)).count()
}

/// How many bytes of a string a text begins with.
pub fn string_len(text: &[u8]) -> usize
    ensures count { result ≡ prefix_len class.is_text_byte text.now }
    ensures within { result ≤ length text.now }
{
    text.iter().take_while(|b| is_text_byte(**b)).count()
}

/// How many bytes stand before the end of the line.
pub fn line_len(text: &[u8]) -> usize
    ensures count { result ≡ prefix_len (λ b. not (letters.is_line_feed b)) text.now }
    ensures within { result ≤ length text.now }
{
    text.iter().take_while(|b| **b != b'\n').count()
}
