//! Punctuation.
ghost use Rattle.std.specs.Prelude.{◌≡◌, ◌==◌, false, [], ◌∷◌, IfSome, IfNone};
ghost use Rattle.wg_lex.specs.Scanning.{IsLongestMark, IsNoMark};
ghost use Rattle.wg_tokens.specs.Spelled.{mark_named};

use crate::slices::byte;
use wg_tokens::Mark;

/// The mark of one byte.
fn single(b: u8) -> Option<Mark>
    ensures { result ≡ mark_named (b ∷ []) }
{
    match b {
        b'{' => Some(Mark::LeftBrace),
        b'}' => Some(Mark::RightBrace),
        b'(' => Some(Mark::LeftParen),
        b')' => Some(Mark::RightParen),
        b'[' => Some(Mark::LeftBracket),
        b']' => Some(Mark::RightBracket),
        b'<' => Some(Mark::Less),
        b'>' => Some(Mark::Greater),
        b';' => Some(Mark::Semicolon),
        b',' => Some(Mark::Comma),
        b'.' => Some(Mark::Dot),
        b':' => Some(Mark::Colon),
        b'?' => Some(Mark::Question),
        b'=' => Some(Mark::Assign),
        b'+' => Some(Mark::Plus),
        b'-' => Some(Mark::Minus),
        b'*' => Some(Mark::Star),
        b'/' => Some(Mark::Slash),
        b'%' => Some(Mark::Percent),
        b'&' => Some(Mark::Ampersand),
        b'|' => Some(Mark::Bar),
        b'^' => Some(Mark::Caret),
        b'!' => Some(Mark::Not),
        b'~' => Some(Mark::Tilde),
        _ => None,
    }
}

/// The mark of a byte and `=`.
fn before_equals(b: u8) -> Option<Mark>
    ensures { result ≡ mark_named (b ∷ 61 ∷ []) }
{
    match b {
        b'<' => Some(Mark::AtMost),
        b'>' => Some(Mark::AtLeast),
        b'=' => Some(Mark::Equal),
        b'!' => Some(Mark::NotEqual),
        b'+' => Some(Mark::PlusAssign),
        b'-' => Some(Mark::MinusAssign),
        b'*' => Some(Mark::StarAssign),
        b'/' => Some(Mark::SlashAssign),
        b'%' => Some(Mark::PercentAssign),
        b'&' => Some(Mark::AmpersandAssign),
        b'|' => Some(Mark::BarAssign),
        b'^' => Some(Mark::CaretAssign),
        _ => None,
    }
}

/// The mark of a byte that stands twice.
fn twice(b: u8) -> Option<Mark>
    requires { (b == 61) ≡ false }
    ensures { result ≡ mark_named (b ∷ b ∷ []) }
{
    match b {
        b'<' => Some(Mark::ShiftLeft),
        b'>' => Some(Mark::ShiftRight),
        b'&' => Some(Mark::And),
        b'|' => Some(Mark::Or),
        b'+' => Some(Mark::Increment),
        b'-' => Some(Mark::Decrement),
        _ => None,
    }
}

#[tactic(auto, using(crate::proofs::MarkSizes::no_other_double))]
fn double(b: u8, c: u8) -> Option<Mark>
    ensures { result ≡ mark_named (b ∷ c ∷ []) }
{
    if c == b'=' {
        before_equals(b)
    } else if c == b {
        twice(b)
    } else {
        None
    }
}

#[tactic(auto, using(crate::proofs::MarkSizes::no_end_triple, crate::proofs::MarkSizes::no_twice_triple, crate::proofs::MarkSizes::no_other_triple))]
fn triple(b: u8, c: u8, d: u8) -> Option<Mark>
    ensures { result ≡ mark_named (b ∷ c ∷ d ∷ []) }
{
    if d != b'=' {
        None
    } else if c != b {
        None
    } else if b == b'<' {
        Some(Mark::ShiftLeftAssign)
    } else if b == b'>' {
        Some(Mark::ShiftRightAssign)
    } else {
        None
    }
}

/// The longest punctuation at the front of a text, and its size in bytes.
pub fn longest_mark(text: &[u8]) -> Option<(Mark, usize)>
    ensures some { IfSome result (λ mark. IsLongestMark text.now mark.0 mark.1) }
    ensures none { IfNone result (IsNoMark text.now) }
{
    let b = byte(text, 0);
    let c = byte(text, 1);
    let d = byte(text, 2);
    if let Some(mark) = triple(b, c, d) {
        Some((mark, 3))
    } else if let Some(mark) = double(b, c) {
        Some((mark, 2))
    } else if let Some(mark) = single(b) {
        Some((mark, 1))
    } else {
        None
    }
}
