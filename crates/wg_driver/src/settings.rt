ghost use Rattle.std.specs.Prelude.{◌≤◌};
ghost use Rattle.wg_words.specs.declared.limits.TheConstants.{MOST_LAUNCHES as MOST, MOST_WORKERS as WIDEST};

use std::str::SplitWhitespace;
use wg_machine::Limits;
use wg_words::limits::{MOST_LAUNCHES, MOST_WORKERS};

/// The graphs that a row may name.
#[derive(Clone, Copy)]
pub enum Graph {
    Forms,
    Splits,
    Sheets,
}

/// What the launches of a row do.
#[derive(Clone, Copy)]
pub enum Deed {
    Count,
    Add,
}

/// A row's graph and bodies, the limits of its run, and how many launches out its plan has room for.
#[derive(Clone, Copy)]
pub struct Settings {
    pub graph: Graph,
    pub deed: Deed,
    pub limits: Limits,
    pub width: u32,

    ghost few_launches: { limits.launches ≤ MOST },
    ghost some_width: { 1 ≤ width },
    ghost small_width: { width ≤ WIDEST },
}

fn graph_named(name: &str) -> Option<Graph> {
    match name {
        "forms" => Some(Graph::Forms),
        "splits" => Some(Graph::Splits),
        "sheets" => Some(Graph::Sheets),
        _ => None,
    }
}

fn deed_named(name: &str) -> Option<Deed> {
    match name {
        "count" => Some(Deed::Count),
        "add" => Some(Deed::Add),
        _ => None,
    }
}

/// The number behind a word.
fn number_after(words: &mut SplitWhitespace<'_>, name: &str) -> Option<u64> {
    if words.next()? != name {
        return None;
    }
    words.next()?.parse::<u64>().ok()
}

/// The settings of a line such as `sheets count turns 65536 launches 1000000 width 3`.
pub fn settings_of(line: &str) -> Option<Settings> {
    let mut words = line.split_whitespace();
    let graph = graph_named(words.next()?)?;
    let deed = deed_named(words.next()?)?;
    let turns = number_after(&mut words, "turns")?;
    let launches = number_after(&mut words, "launches")?;
    let width = u32::try_from(number_after(&mut words, "width")?).ok()?;
    if launches > MOST_LAUNCHES || width < 1 || width > MOST_WORKERS {
        return None;
    }
    Some(Settings {
        graph,
        deed,
        limits: Limits { turns, launches },
        width,
    })
}
