use wg_machine::Atomic;
use wg_words::Word;

/// What a launch does to a word before its interlocked form.
#[derive(Clone, Copy, Debug, PartialEq, Eq)]
pub enum Before {
    Nothing,
    Load,
    Store(Word),
    Add(Word),
}

/// An interlocked form at a word of the first buffer, with what goes before it and the turns that its launch makes.
#[derive(Clone, Copy, Debug, PartialEq, Eq)]
pub struct Form {
    pub before: Before,
    pub op: Atomic,
    pub word: u32,
    pub compare: Word,
    pub value: Word,
    pub turns: u64,
}
