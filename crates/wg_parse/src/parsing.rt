//! A whole text.
ghost use Rattle.std.specs.Prelude.{◌≡◌, List, IfOk, IfErr};
ghost use Rattle.wg_tokens.specs.declared.token.Token.{Token as Cut};
ghost use Rattle.wg_tree.specs.ParseFaults.{SpelledWithin, Answer, IsAnswer};
ghost use Rattle.wg_parse.specs.Faults as spec;

use crate::item::text;
use std::alloc::{AllocError, Global};
use wg_cursor::{Cursor, Halt, classes};
use wg_tokens::{Token, TokenKind};
use wg_tree::{Source, one_answer, reads_to_the_fault, reads_what_is_spelled};
use wg_words::{Place, TryCopy};

/// How deep statements and expressions may nest, each.
pub const MOST_NESTING: u32 = 64;

/// Why tokens are not those of a text of the language.
#[derive(Debug, Drop)]
pub enum ParseFault {
    /// No text begins with the tokens up to this one, or the tokens end before the text does. At the end the kind is `End`, and the place that of the byte after the last token; a column that 32 bits can't hold is the greatest that they can.
    Expected { place: Place, kind: TokenKind },
    /// The first token that stands deeper than 64.
    TooDeep { place: Place },
    /// No memory was left.
    Memory,
}

/// In a text that is not too long, the end has the place that it is answered with.
pub fn ends_of_texts_fit()
    ensures { (tokens : List Cut) → spec.IsOfText tokens → spec.in_32_bits (spec.end_of (spec.last tokens)) ≡ spec.end_of (spec.last tokens) }
{}

/// An equal kind.
fn copy_kind(alloc: Global, kind: &TokenKind) -> Result<TokenKind, AllocError>
    ensures { IfOk result (λ copied. copied ≡ kind.now) }
{
    Ok(match kind {
        TokenKind::Plain { name } => TokenKind::Plain {
            name: name.copy(alloc)?,
        },
        TokenKind::Number {
            value,
            unsigned,
            long,
        } => TokenKind::Number {
            value: *value,
            unsigned: *unsigned,
            long: *long,
        },
        TokenKind::Text { bytes } => TokenKind::Text {
            bytes: bytes.copy(alloc)?,
        },
        TokenKind::Mark { mark } => TokenKind::Mark { mark: *mark },
        TokenKind::End => TokenKind::End,
    })
}

/// The place of the byte after the last token.
fn end_of(tokens: &[Token]) -> Place
    ensures { result ≡ spec.in_32_bits (spec.end_of (spec.last tokens.now)) }
{
    match tokens.last() {
        Some(token) => {
            let size = token.to.saturating_sub(token.from);
            Place {
                line: token.place.line,
                column: token.place.column.saturating_add(size),
            }
        }
        None => Place { line: 1, column: 1 },
    }
}

/// The place of the next token, or of the end.
fn place_at(tokens: &[Token], rest: &[Token]) -> Place
    ensures { result ≡ spec.place_at tokens.now rest.now }
{
    match rest {
        [] => end_of(tokens),
        [next, ..] => next.place,
    }
}

fn kind_at(alloc: Global, rest: &[Token]) -> Result<TokenKind, AllocError>
    ensures { IfOk result (λ kind. kind ≡ spec.kind_at rest.now) }
{
    match rest {
        [] => Ok(TokenKind::End),
        [next, ..] => copy_kind(alloc, &next.kind),
    }
}

/// The fault of tokens that could go on with none of the rest, which is where reading stopped.
fn expected(alloc: Global, tokens: &[Token], rest: &[Token]) -> ParseFault
    ensures { spec.SaysExpected tokens.now rest.now result }
{
    match kind_at(alloc, rest) {
        Ok(kind) => ParseFault::Expected {
            place: place_at(tokens, rest),
            kind,
        },
        Err(_) => ParseFault::Memory,
    }
}

/// The tree of the tokens of a text within a nesting, or the first token that fails.
fn parse_within(alloc: Global, tokens: &[Token], nesting: u32) -> Result<Source, ParseFault>
    ensures tree { IfOk result (λ tree. SpelledWithin nesting tokens.now tree) }
    ensures fault { IfErr result (λ fault. spec.HasCause nesting tokens.now fault) }
    ensures exact { (answer : Answer) → IsAnswer nesting tokens.now answer → spec.TellsAnswer tokens.now answer result }
{
    reads_what_is_spelled();
    reads_to_the_fault();
    one_answer();
    let classes = match classes(alloc, tokens) {
        Ok(classes) => classes,
        Err(_) => return Err(ParseFault::Memory),
    };
    let mut cursor = Cursor::new(tokens, &classes);
    match text(alloc, &mut cursor, nesting) {
        Ok(tree) => {
            if cursor.left() == 0 {
                Ok(tree)
            } else {
                Err(expected(alloc, tokens, cursor.rest()))
            }
        }
        Err(Halt::Wrong) => Err(expected(alloc, tokens, cursor.rest())),
        Err(Halt::Deep) => Err(ParseFault::TooDeep {
            place: place_at(tokens, cursor.rest()),
        }),
        Err(Halt::Memory) => Err(ParseFault::Memory),
    }
}

/// The tree of the tokens of a text, or the first token that fails.
pub fn parse(alloc: Global, tokens: &[Token]) -> Result<Source, ParseFault>
    ensures tree { IfOk result (λ tree. SpelledWithin spec.nesting tokens.now tree) }
    ensures fault { IfErr result (λ fault. spec.HasCause spec.nesting tokens.now fault) }
    ensures exact { (answer : Answer) → IsAnswer spec.nesting tokens.now answer → spec.TellsAnswer tokens.now answer result }
{
    parse_within(alloc, tokens, MOST_NESTING)
}
