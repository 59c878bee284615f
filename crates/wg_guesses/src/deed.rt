use std::str::SplitWhitespace;
use wg_exchangers::{Before, Form};
use wg_machine::Atomic;
use wg_words::Word;

/// What the launch of a row does.
#[derive(Clone, Copy)]
pub enum Deed {
    /// An interlocked form.
    Form(Form),
    /// The addition of a record's word.
    Add(Word),
    /// The doubling of a word.
    Double,
    /// The counting of a record of this word.
    Count(Word),
}

fn number(words: &mut SplitWhitespace<'_>) -> Option<u32> {
    words.next()?.parse::<u32>().ok()
}

fn atomic_below_or(name: &str) -> Option<Atomic> {
    match name {
        "min" => Some(Atomic::Min),
        "min_signed" => Some(Atomic::MinSigned),
        "max" => Some(Atomic::Max),
        "max_signed" => Some(Atomic::MaxSigned),
        "and" => Some(Atomic::And),
        _ => None,
    }
}

fn atomic_named(name: &str) -> Option<Atomic> {
    match name {
        "or" => Some(Atomic::Or),
        "xor" => Some(Atomic::Xor),
        "add" => Some(Atomic::Add),
        "exchange" => Some(Atomic::Exchange),
        "compare_exchange" => Some(Atomic::CompareExchange),
        _ => atomic_below_or(name),
    }
}

/// What is done before the form: `nothing`, `load`, `store 12` or `add 7`.
fn read_before(words: &mut SplitWhitespace<'_>) -> Option<Before> {
    let name = words.next()?;
    if name == "store" {
        return Some(Before::Store(number(words)?));
    }
    if name == "add" {
        return Some(Before::Add(number(words)?));
    }
    if name == "load" {
        return Some(Before::Load);
    }
    Some(Before::Nothing)
}

/// A form by its name, its word, the compare value, the value, its turns, and what is done before it.
fn read_form(words: &mut SplitWhitespace<'_>) -> Option<Form> {
    let op = atomic_named(words.next()?)?;
    let word = number(words)?;
    let compare = number(words)?;
    let value = number(words)?;
    let turns = number(words)?;
    let before = read_before(words)?;
    Some(Form {
        before,
        op,
        word,
        compare,
        value,
        turns: u64::from(turns),
    })
}

/// What a line such as `form min 1 0 3 0 nothing`, `add 5`, `double` or `count 2` says.
pub fn read_deed(line: &str) -> Option<Deed> {
    let mut words = line.split_whitespace();
    let name = words.next()?;
    if name == "form" {
        return Some(Deed::Form(read_form(&mut words)?));
    }
    if name == "add" {
        return Some(Deed::Add(number(&mut words)?));
    }
    if name == "count" {
        return Some(Deed::Count(number(&mut words)?));
    }
    if name == "double" {
        Some(Deed::Double)
    } else {
        None
    }
}
