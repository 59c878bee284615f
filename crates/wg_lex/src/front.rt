//! What stands at the front of a text.
ghost use Rattle.std.specs.Prelude.{◌≡◌, ◌<◌, ◌==◌, ◌&&◌, true, false, length, IfOk, slice_index};
ghost use Rattle.wg_words.specs.Characters as letters;
ghost use Rattle.wg_tokens.specs.Characters as class;
ghost use Rattle.wg_lex.specs.Fronts.{IsFront};
ghost use Rattle.wg_lex.specs.Scanning.{BeginsNoOther};

use crate::characters::{is_blank, is_digit, is_letter, line_len, string_len, word_len};
use crate::comments::comment_len;
use crate::marks::longest_mark;
use crate::numbers::scan_number;
use crate::slices::{after, before, byte};
use std::alloc::{AllocError, Global};
use wg_tokens::TokenKind;
use wg_words::Items;

/// The longest piece at the front of a text with its size in bytes, or the rule that its front breaks.
#[derive(Debug, Drop)]
pub enum Front {
    /// A blank or a comment.
    Skipped { size: usize },
    Token { kind: TokenKind, size: usize },
    WideLiteral,
    OpenComment,
    /// No piece begins here.
    Stray,
}

fn begins_with(text: &[u8], first: u8, second: u8) -> bool
    ensures { result ≡ (slice_index text.now 0 == first && slice_index text.now 1 == second) }
{
    byte(text, 0) == first && byte(text, 1) == second
}

fn name(alloc: Global, text: &[u8]) -> Result<Front, AllocError>
    requires blank { class.is_blank (slice_index text.now 0) ≡ false }
    requires letter { letters.is_letter (slice_index text.now 0) ≡ true }
    ensures { IfOk result (λ front. IsFront text.now front) }
{
    let size = word_len(text);
    let name = Items::from_slice(alloc, before(text, size))?;
    Ok(Front::Token {
        kind: TokenKind::Plain { name },
        size,
    })
}

fn number(text: &[u8]) -> Front
    requires { letters.is_digit (slice_index text.now 0) ≡ true }
    ensures { IsFront text.now result }
{
    let numeral = scan_number(text);
    match numeral.value {
        Some(value) => Front::Token {
            kind: TokenKind::Number {
                value,
                unsigned: numeral.suffix.unsigned,
                long: numeral.suffix.long,
            },
            size: numeral.size,
        },
        None => Front::WideLiteral,
    }
}

fn string(alloc: Global, text: &[u8]) -> Result<Front, AllocError>
    requires some { 0 < length text.now }
    requires quote { slice_index text.now 0 ≡ 34 }
    ensures { IfOk result (λ front. IsFront text.now front) }
{
    let inside = after(text, 1);
    let count = string_len(inside);
    if byte(inside, count) != b'"' {
        return Ok(Front::Stray);
    }
    let bytes = Items::from_slice(alloc, before(inside, count))?;
    Ok(Front::Token {
        kind: TokenKind::Text { bytes },
        size: count + 2,
    })
}

fn line_comment(text: &[u8]) -> Front
    requires { (slice_index text.now 0 == 47 && slice_index text.now 1 == 47) ≡ true }
    ensures { IsFront text.now result }
{
    Front::Skipped {
        size: line_len(after(text, 2)) + 2,
    }
}

fn block_comment(text: &[u8]) -> Front
    requires { (slice_index text.now 0 == 47 && slice_index text.now 1 == 42) ≡ true }
    ensures { IsFront text.now result }
{
    match comment_len(after(text, 2)) {
        Some(size) => Front::Skipped { size: size + 2 },
        None => Front::OpenComment,
    }
}

fn mark(text: &[u8]) -> Front
    requires some { 0 < length text.now }
    requires other { BeginsNoOther text.now }
    ensures { IsFront text.now result }
{
    match longest_mark(text) {
        Some((mark, size)) => Front::Token {
            kind: TokenKind::Mark { mark },
            size,
        },
        None => Front::Stray,
    }
}

/// The front of a text that is not empty.
pub fn scan(alloc: Global, text: &[u8]) -> Result<Front, AllocError>
    requires { 0 < length text.now }
    ensures { IfOk result (λ front. IsFront text.now front) }
{
    let first = byte(text, 0);
    if is_blank(first) {
        Ok(Front::Skipped { size: 1 })
    } else if is_letter(first) {
        name(alloc, text)
    } else if is_digit(first) {
        Ok(number(text))
    } else if first == b'"' {
        string(alloc, text)
    } else if begins_with(text, b'/', b'/') {
        Ok(line_comment(text))
    } else if begins_with(text, b'/', b'*') {
        Ok(block_comment(text))
    } else {
        Ok(mark(text))
    }
}
