//! A whole text.
ghost use Rattle.std.specs.Prelude.{◌≡◌, ◌+◌, ◌<◌, ◌≤◌, length, IfOk, IfErr, List};
ghost use Rattle.wg_tokens.specs.Cut.{Cuts};
ghost use Rattle.wg_tokens.specs.LexicalRules.{BreaksNone, Keeps, most_bytes, wide_literal, open_comment};
ghost use Rattle.wg_lex.specs.declared.fault.LexFault.TheVariants.{Memory};
ghost use Rattle.wg_tokens.specs.declared.token.Token.{Token};
ghost use Rattle.wg_lex.specs.Faults.{IsFault};
ghost use Rattle.wg_lex.specs.Fronts.{stray_fault};

use crate::fault::LexFault;
use crate::front::{Front, scan};
use crate::position::Position;
use crate::slices::{after, before, byte};
use std::alloc::Global;
use wg_tokens::Token;

/// The greatest number of bytes of a text.
pub const MOST_BYTES: usize = 1_048_576;

/// Why no piece begins with this byte.
fn stray(b: u8, position: Position) -> LexFault
    ensures { result ≡ stray_fault b position }
{
    let place = position.place;
    if b >= 128 {
        LexFault::NotAscii { place }
    } else if b == b'#' && position.only_blanks {
        LexFault::Preprocessor { place }
    } else {
        LexFault::StrayByte { place }
    }
}

/// The tokens of a text, in order, or the first rule that it breaks.
fn cut(alloc: Global, text: &[u8]) -> Result<Vec<Token>, LexFault>
    ensures cut { IfOk result (λ tokens. Cuts text.now tokens.items) }
    ensures only { IfOk result (λ tokens. (others : List Token) → Cuts text.now others → others ≡ tokens.items) }
    ensures rules { IfOk result (λ _. BreaksNone text.now) }
    ensures size { IfOk result (λ _. length text.now ≤ most_bytes) }
    ensures fault { IfErr result (λ fault. IsFault text.now fault) }
{
    if text.len() > MOST_BYTES {
        return Err(LexFault::TextTooLong);
    }
    let mut tokens = Vec::new(alloc);
    let mut position = Position::START;
    let mut at = 0;
    while at < text.len() {
        let rest = after(text, at);
        let place = position.place;
        let size = match scan(alloc, rest)? {
            Front::Skipped { size } => size,
            Front::Token { kind, size } => {
                tokens.push(Token {
                    kind,
                    place,
                    from: at as u32,
                    to: (at + size) as u32,
                })?;
                size
            }
            Front::WideLiteral => return Err(LexFault::WideLiteral { place }),
            Front::OpenComment => return Err(LexFault::OpenComment { place }),
            Front::Stray => return Err(stray(byte(rest, 0), position)),
        };
        position = position.after(before(rest, size));
        at += size;
    }
    Ok(tokens)
}

/// The tokens of a text, in order, or the first rule that it breaks.
pub fn lex(alloc: Global, text: &[u8]) -> Result<Vec<Token>, LexFault>
    ensures cut { IfOk result (λ tokens. Cuts text.now tokens.items) }
    ensures only { IfOk result (λ tokens. (others : List Token) → Cuts text.now others → others ≡ tokens.items) }
    ensures rules { IfOk result (λ _. BreaksNone text.now) }
    ensures size { IfOk result (λ _. length text.now ≤ most_bytes) }
    ensures fault { IfErr result (λ fault. IsFault text.now fault) }
    ensures exact { IfErr result (λ fault. (tokens : List Token) → Cuts text.now tokens → length text.now ≤ most_bytes → Keeps text.now wide_literal → Keeps text.now open_comment → fault ≡ Memory) }
{
    cut(alloc, text)
}
