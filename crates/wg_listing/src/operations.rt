use crate::records::record_named;
use crate::registers::{number, register_named};
use std::str::SplitWhitespace;
use wg_code::Op;

fn shared_named(name: &str, words: &mut SplitWhitespace<'_>) -> Option<Op> {
    match name {
        "shared_get" => Some(Op::SharedGet {
            d: number(words),
            from: number(words),
            to: number(words),
            index: number(words),
        }),
        "shared_put" => Some(Op::SharedPut {
            from: number(words),
            to: number(words),
            index: number(words),
            a: number(words),
        }),
        "shared_atomic" => Some(Op::SharedAtomic {
            op: number(words),
            d: number(words),
            from: number(words),
            to: number(words),
            index: number(words),
            compare: number(words),
            value: number(words),
        }),
        _ => None,
    }
}

fn buffer_named(name: &str, words: &mut SplitWhitespace<'_>) -> Option<Op> {
    match name {
        "buffer_get" => Some(Op::BufferGet {
            d: number(words),
            buffer: number(words),
            word: number(words),
        }),
        "buffer_put" => Some(Op::BufferPut {
            buffer: number(words),
            word: number(words),
            a: number(words),
        }),
        "buffer_add" => Some(Op::BufferAdd {
            buffer: number(words),
            word: number(words),
            a: number(words),
        }),
        "buffer_atomic" => Some(Op::BufferAtomic {
            op: number(words),
            d: number(words),
            buffer: number(words),
            word: number(words),
            compare: number(words),
            value: number(words),
        }),
        "buffer_length" => Some(Op::BufferLength {
            d: number(words),
            buffer: number(words),
        }),
        _ => shared_named(name, words),
    }
}

fn input_named(name: &str, words: &mut SplitWhitespace<'_>) -> Option<Op> {
    match name {
        "input_get" => Some(Op::InputGet {
            d: number(words),
            input: number(words),
            word: number(words),
        }),
        "input_put" => Some(Op::InputPut {
            input: number(words),
            word: number(words),
            a: number(words),
        }),
        "input_count" => Some(Op::InputCount { d: number(words) }),
        "level" => Some(Op::Level { d: number(words) }),
        "last" => Some(Op::Last { d: number(words) }),
        "system" => Some(Op::System {
            d: number(words),
            which: number(words),
        }),
        _ => buffer_named(name, words),
    }
}

/// The operation of a name and the numbers behind it, if it holds no others and calls no function.
pub fn leaf_named(name: &str, words: &mut SplitWhitespace<'_>) -> Option<Op> {
    match register_named(name, words) {
        Some(op) => Some(op),
        None => match record_named(name, words) {
            Some(op) => Some(op),
            None => input_named(name, words),
        },
    }
}
