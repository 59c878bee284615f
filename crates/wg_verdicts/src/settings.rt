ghost use Rattle.std.specs.Prelude.{◌≤◌};
ghost use Rattle.wg_words.specs.declared.limits.TheConstants.{MOST_LAUNCHES as MOST, MOST_WORKERS as WIDEST};

use std::str::SplitWhitespace;
use wg_machine::Limits;
use wg_words::limits::{MOST_LAUNCHES, MOST_WORKERS};

/// The graphs that a row may name.
#[derive(Clone, Copy)]
pub enum Graph {
    Splits,
    Sheets,
}

/// A row's graph, with the limits and the number of workers of its run.
#[derive(Clone, Copy)]
pub struct Settings {
    pub graph: Graph,
    pub limits: Limits,
    pub workers: u32,

    ghost few_launches: { limits.launches ≤ MOST },
    ghost some_workers: { 1 ≤ workers },
    ghost few_workers: { workers ≤ WIDEST },
}

fn graph_named(name: &str) -> Option<Graph> {
    if name == "splits" {
        return Some(Graph::Splits);
    }
    if name == "sheets" {
        return Some(Graph::Sheets);
    }
    None
}

/// The number behind a word.
fn number_after(words: &mut SplitWhitespace<'_>, name: &str) -> Option<u64> {
    if words.next()? != name {
        return None;
    }
    words.next()?.parse::<u64>().ok()
}

/// The settings of a line such as `splits turns 65536 launches 1000000 workers 1`.
pub fn settings_of(line: &str) -> Option<Settings> {
    let mut words = line.split_whitespace();
    let graph = graph_named(words.next()?)?;
    let turns = number_after(&mut words, "turns")?;
    let launches = number_after(&mut words, "launches")?;
    let workers = u32::try_from(number_after(&mut words, "workers")?).ok()?;
    if launches > MOST_LAUNCHES || workers < 1 || workers > MOST_WORKERS {
        return None;
    }
    Some(Settings {
        graph,
        limits: Limits { turns, launches },
        workers,
    })
}
