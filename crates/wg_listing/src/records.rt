use crate::registers::number;
use std::str::SplitWhitespace;
use wg_code::Op;

fn way_out_named(name: &str) -> Option<Op> {
    match name {
        "break" => Some(Op::Break),
        "continue" => Some(Op::Continue),
        _ => None,
    }
}

fn word_named(name: &str, words: &mut SplitWhitespace<'_>) -> Option<Op> {
    match name {
        "record_get" => Some(Op::RecordGet {
            d: number(words),
            handle: number(words),
            index: number(words),
            from: number(words),
            to: number(words),
            word: number(words),
        }),
        "record_put" => Some(Op::RecordPut {
            handle: number(words),
            index: number(words),
            from: number(words),
            to: number(words),
            word: number(words),
            a: number(words),
        }),
        _ => way_out_named(name),
    }
}

/// An operation on new records, or one that leaves a block.
pub fn record_named(name: &str, words: &mut SplitWhitespace<'_>) -> Option<Op> {
    match name {
        "valid" => Some(Op::Valid {
            d: number(words),
            output: number(words),
            element: number(words),
        }),
        "request" => Some(Op::Request {
            handle: number(words),
            element: number(words),
            amount: number(words),
        }),
        "increment" => Some(Op::Increment {
            output: number(words),
            element: number(words),
            amount: number(words),
        }),
        "complete" => Some(Op::Complete {
            handle: number(words),
        }),
        _ => word_named(name, words),
    }
}
