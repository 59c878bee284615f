ghost use Rattle.std.specs.Prelude.{◌≡◌};
ghost use Rattle.wg_engine.specs.Ending.{EndIs, bare_journal};

use crate::keeping::Keeping;
use crate::stepping::Spent;
use std::alloc::Global;
use wg_buffers::Buffers;
use wg_machine::{BufferLines, EntryList, Journal, Launch, Limits, Tail};

/// How a run ended.
#[derive(Debug, Drop)]
pub enum End {
    /// Nothing is left to run.
    Complete,
    /// The journal has as many launches as the limit, and something is left.
    Launches,
    /// This launch spent its turns.
    Turns(Launch),
    /// The run can go on.
    Open,
}

/// What a run came to.
///
/// `records` counts the records that came to be, `denied` the requests that were granted none; `peak` and `bytes` are the
/// greatest number of bytes that lived at any moment and those of the plan. The journal has no tail.
#[derive(Debug, Drop)]
pub struct Report {
    pub journal: Journal,
    pub records: u64,
    pub denied: u64,
    pub peak: u64,
    pub bytes: u64,
    pub end: End,
    pub limits: Limits,
    pub buffers: Buffers,
}

/// How a core ends that has this keep.
pub fn end_of<K: Keeping>(keep: &K, spent: Option<Spent>) -> End
    ensures { EndIs (K.seen keep.now) spent result }
{
    if let Some(spent) = spent {
        let Spent { ticket: _, launch } = spent;
        return End::Turns(launch);
    }
    if keep.is_idle() {
        return End::Complete;
    }
    let full = keep.length() == keep.limits().launches;
    if (keep.out_count() == 0) & full {
        return End::Launches;
    }
    End::Open
}

/// A journal of these launches without a tail.
pub fn without_tail(alloc: Global, entries: EntryList) -> Journal
    ensures { result ≡ bare_journal entries }
{
    Journal {
        entries,
        tail: Tail {
            done: None,
            buffers: BufferLines::from_vec(Vec::new(alloc)),
            stop: None,
        },
    }
}
