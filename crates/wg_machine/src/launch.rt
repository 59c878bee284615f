use std::alloc::{AllocError, Global};
use wg_words::{Items, Numbers, TryCopy, Words};

pub type Records = Items<Record>;

pub type SentList = Items<Sent>;

/// The records that a script hands in, in its order.
pub type Entries = Items<Sent>;

/// Thread groups, each by its three coordinates in its record's grid.
pub type Groups = Items<[u32; 3]>;

/// Live records in rising order of number.
pub type Bag = Items<Live>;

pub type EntryList = Items<Entry>;

/// A record with its number. A `bool` is a word 0 or 1.
#[derive(Debug, Drop)]
pub struct Record {
    pub number: u64,
    pub words: Words,
}

/// A record without its number, for a unit: one that a launch sends, or that a script hands in.
#[derive(Debug, Drop)]
pub struct Sent {
    pub unit: u32,
    pub words: Words,
}

/// A record that is not yet consumed, with the grid of its birth and the groups of it that have not run.
#[derive(Debug, Drop)]
pub struct Live {
    pub number: u64,
    pub unit: u32,
    pub words: Words,
    pub grid: [u32; 3],
    pub groups: Groups,
}

/// One thread group, or one thread of a thread-launch node, with the records that it takes.
///
/// `group` is the linear number in `grid`, that of the record's birth, x running fastest; for thread and coalescing
/// launches it is 0 and the grid 1 1 1. `last` is true where the unit is shared and this is the last group of its
/// record that has not run.
#[derive(Debug, Drop)]
pub struct Launch {
    pub unit: u32,
    pub records: Records,
    pub group: u32,
    pub grid: [u32; 3],
    pub last: bool,
}

/// What a launch made, beside what it did to the buffers: the records that it sent by output parameter, element,
/// request and index, its denied requests, and its turns. `shared` has the record's new words where the unit is shared.
#[derive(Debug, Drop)]
pub struct Made {
    pub sent: SentList,
    pub denied: u32,
    pub turns: u64,
    pub shared: Option<Words>,
}

/// An entry of a journal: a launch that was settled, with the numbers that it took and gave.
///
/// `at` has the group's coordinates in its record's grid; `first_out` is 0 where `outs` is 0.
#[derive(Debug, Drop)]
pub struct Entry {
    pub unit: u32,
    pub at: [u32; 3],
    pub inputs: Numbers,
    pub first_out: u64,
    pub outs: u32,
}

/// The turns that one launch may make, and the launches that a run may make.
#[derive(Clone, Copy, Debug, PartialEq, Eq)]
pub struct Limits {
    pub turns: u64,
    pub launches: u64,
}

impl TryCopy for Record {
    fn copy(&self, alloc: Global) -> Result<Self, AllocError> {
        Ok(Record {
            number: self.number,
            words: self.words.copy(alloc)?,
        })
    }
}

impl TryCopy for Sent {
    fn copy(&self, alloc: Global) -> Result<Self, AllocError> {
        Ok(Sent {
            unit: self.unit,
            words: self.words.copy(alloc)?,
        })
    }
}

impl TryCopy for Launch {
    fn copy(&self, alloc: Global) -> Result<Self, AllocError> {
        Ok(Launch {
            unit: self.unit,
            records: self.records.copy(alloc)?,
            group: self.group,
            grid: self.grid,
            last: self.last,
        })
    }
}
