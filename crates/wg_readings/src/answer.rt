use std::alloc::{AllocError, Global};
use std::fmt;
use wg_lex::{LexFault, lex};
use wg_parse::{ParseFault, parse};
use wg_tokens::{Token, TokenKind};
use wg_words::Place;

/// What a row asks for.
#[derive(Clone, Copy)]
pub enum Asked {
    /// The tokens of the text.
    Tokens,
    /// Whether the grammar has the text.
    Grammar,
}

/// How a text is cut or read.
#[derive(Drop)]
pub enum Answer {
    /// The texts of the tokens, and behind a number its value.
    Cut(String),
    Read,
    NotCut(LexFault),
    Expected { place: Place },
    TooDeep { place: Place },
    Memory,
}

impl fmt::Display for Answer {
    fn fmt<W: fmt::Write>(&self, f: &mut fmt::Formatter<W>) -> fmt::Result {
        match self {
            Answer::Cut(parts) => f.write_str(parts.as_str()),
            Answer::Read => f.write_str("read"),
            Answer::NotCut(fault) => write!(f, "{fault:?}"),
            Answer::Expected { place } => write!(f, "expected at {}:{}", place.line, place.column),
            Answer::TooDeep { place } => write!(f, "too deep at {}:{}", place.line, place.column),
            Answer::Memory => f.write_str("memory"),
        }
    }
}

fn push_part(
    alloc: Global,
    parts: &mut String,
    text: &[u8],
    token: &Token,
) -> Result<(), AllocError> {
    for byte in text
        .get(token.from as usize..token.to as usize)
        .unwrap_or(&[])
    {
        parts.push(*byte as char)?;
    }
    if let TokenKind::Number { value, .. } = &token.kind {
        let value = format!(in alloc; "={value}")?;
        parts.push_str(value.as_str())?;
    }
    Ok(())
}

/// The tokens with a blank between two of them.
fn parts_of(alloc: Global, text: &[u8], tokens: &[Token]) -> Result<String, AllocError> {
    let mut parts = String::new(alloc);
    for token in tokens {
        if !parts.is_empty() {
            parts.push(' ')?;
        }
        push_part(alloc, &mut parts, text, token)?;
    }
    Ok(parts)
}

fn read(alloc: Global, tokens: &[Token]) -> Answer {
    match parse(alloc, tokens) {
        Ok(_) => Answer::Read,
        Err(ParseFault::Expected { place, .. }) => Answer::Expected { place },
        Err(ParseFault::TooDeep { place }) => Answer::TooDeep { place },
        Err(ParseFault::Memory) => Answer::Memory,
    }
}

/// The answer to a row of this text.
pub fn answer_of(alloc: Global, asked: Asked, text: &[u8]) -> Answer {
    let tokens = match lex(alloc, text) {
        Ok(tokens) => tokens,
        Err(fault) => return Answer::NotCut(fault),
    };
    match asked {
        Asked::Grammar => read(alloc, tokens.as_slice()),
        Asked::Tokens => match parts_of(alloc, text, tokens.as_slice()) {
            Ok(parts) => Answer::Cut(parts),
            Err(_) => Answer::Memory,
        },
    }
}
