use crate::EntryList;
use wg_words::{Items, Name, Numbers, Words};

pub type BufferLines = Items<BufferLine>;

/// What a report says: the launches of a run in order, and how they end.
#[derive(Debug, Drop)]
pub struct Journal {
    pub entries: EntryList,
    pub tail: Tail,
}

/// What follows the launch lines: the line of a complete run with the buffers, a stop, or nothing.
#[derive(Debug, Drop)]
pub struct Tail {
    pub done: Option<Done>,
    pub buffers: BufferLines,
    pub stop: Option<Stop>,
}

/// What the last launch line of a complete run is followed by.
///
/// `launches` counts the launches, `records` the records that came to be, `denied` the requests of at least 1 that
/// were granted none. `peak` is the greatest number of bytes that lived at any moment, `bytes` those of the plan.
#[derive(Clone, Copy, Debug, PartialEq, Eq)]
pub struct Done {
    pub launches: u64,
    pub records: u64,
    pub denied: u64,
    pub peak: u64,
    pub bytes: u64,
}

/// A shared buffer as a report tells it: its name, its count of words, and the words that the line has.
#[derive(Debug, Drop)]
pub struct BufferLine {
    pub name: Name,
    pub count: u64,
    pub words: Words,
}

/// Why a run stopped early: a launch that spent its turns, or the run's launches.
#[derive(Debug, Drop)]
pub enum Stop {
    Turns {
        turns: u64,
        unit: u32,
        group: [u32; 3],
        inputs: Numbers,
    },
    Launches {
        launches: u64,
    },
}
