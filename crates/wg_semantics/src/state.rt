use wg_state::World;
use wg_words::{Word, WordLists, Words};

/// What a lane reads and writes: the words of each variable of the function that it runs, and what the lanes share.
#[derive(Debug, Drop)]
pub struct State {
    pub variables: WordLists,
    pub world: World,
}

/// A lane between two phases, with the words of its entry function's variables; one that has returned runs no more.
#[derive(Debug, Drop)]
pub struct Lane {
    pub variables: WordLists,
    pub returned: bool,
}

/// What holds words: a variable, a buffer, an input record, or a record of a grant, each by its number.
#[derive(Clone, Copy, Debug, PartialEq, Eq)]
pub enum Store {
    Variable { variable: u32 },
    Shared { variable: u32 },
    Buffer { buffer: u32 },
    Input { record: u32 },
    Granted { grant: u64, item: u32 },
}

/// What an expression gives: words, or the place where they stand, which an index may put outside.
#[derive(Debug, Drop)]
pub enum Spot {
    Value { words: Words },
    At { store: Store, from: u64 },
    Nowhere,
}

/// A value that is passed to a function, and the place to which it is copied back, if any.
#[derive(Debug, Drop)]
pub struct Passed {
    pub words: Words,
    pub back: Option<Spot>,
}

/// How a statement ends.
#[derive(Debug, Drop)]
pub enum Flow {
    Next,
    Broke,
    Continued,
    Returned { words: Words },
}

/// The body of a node of a shape: the number of its function in the text, and its `NumThreads`.
#[derive(Clone, Copy, Debug, PartialEq, Eq)]
pub struct Body {
    pub function: u32,
    pub threads: [Word; 3],
}
