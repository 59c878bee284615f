use std::str::SplitWhitespace;
use wg_code::Op;

/// The next number of a line; 0 where there is none.
pub fn number(words: &mut SplitWhitespace<'_>) -> u32 {
    match words.next() {
        Some(word) => word.parse::<u32>().unwrap_or(0),
        None => 0,
    }
}

fn local_named(name: &str, words: &mut SplitWhitespace<'_>) -> Option<Op> {
    match name {
        "set" => Some(Op::Set {
            d: number(words),
            value: number(words),
        }),
        "copy" => Some(Op::Copy {
            d: number(words),
            a: number(words),
        }),
        "local_get" => Some(Op::LocalGet {
            d: number(words),
            from: number(words),
            to: number(words),
            index: number(words),
        }),
        "local_put" => Some(Op::LocalPut {
            from: number(words),
            to: number(words),
            index: number(words),
            a: number(words),
        }),
        _ => None,
    }
}

/// An operation on registers alone.
pub fn register_named(name: &str, words: &mut SplitWhitespace<'_>) -> Option<Op> {
    match name {
        "unary" => Some(Op::Unary {
            op: number(words),
            d: number(words),
            a: number(words),
        }),
        "binary" => Some(Op::Binary {
            op: number(words),
            d: number(words),
            a: number(words),
            b: number(words),
        }),
        "wide" => Some(Op::Wide {
            op: number(words),
            d: number(words),
            a: number(words),
            b: number(words),
        }),
        "half" => Some(Op::Half {
            op: number(words),
            d: number(words),
            a: number(words),
            b: number(words),
        }),
        _ => local_named(name, words),
    }
}
