ghost use Rattle.std.specs.Prelude.{◌≡◌, IfOk, length};
ghost use Rattle.wg_machine.specs.GoodShape.{IsGoodShape};
ghost use Rattle.wg_journal.specs.Report.{IsReport};
ghost use Rattle.wg_script.specs.Fit.{IsFit};

use crate::left::{left_by, write_rest};
use crate::settings::{Graph, Settings};
use std::alloc::{AllocError, Global};
use std::fmt;
use wg_counters::{Counters, sheets, splits};
use wg_journal::{Journal, JournalFault, print, read};
use wg_machine::Shape;
use wg_plain::Rest;
use wg_plan::{good_shapes_are_small, plan};
use wg_script::{Script, ScriptFault, read_script};
use wg_verify::{Verdict, verify};

/// What a row asks for.
#[derive(Clone, Copy)]
pub enum Asked {
    /// What the journal is worth.
    Worth,
    /// The journal printed again.
    Text,
    /// What the journal's launches leave.
    Rest,
    /// What the script says.
    Script,
}

/// The answer to a row, or why there is none.
#[derive(Drop)]
pub enum Answer {
    Worth(Verdict),
    Text { alike: bool },
    Left(Rest),
    NoStep { entry: u64 },
    Says(Script),
    /// The first line that no report has there.
    Unreadable { line: u64 },
    NoSettings,
    NoScript(ScriptFault),
    NoPlan,
    Memory,
}

fn write_verdict<W: fmt::Write>(f: &mut fmt::Formatter<W>, verdict: Verdict) -> fmt::Result {
    match verdict {
        Verdict::Complete => f.write_str("complete"),
        Verdict::Prefix => f.write_str("prefix"),
        Verdict::Wrong { line } => write!(f, "wrong line {line}"),
        Verdict::OverBytes { line } => write!(f, "over bytes line {line}"),
        Verdict::TurnsSpent { line } => write!(f, "turns spent line {line}"),
        Verdict::Memory => f.write_str("memory"),
    }
}

/// A script's records, and the length and the first words of each of its buffers.
fn write_script<W: fmt::Write>(f: &mut fmt::Formatter<W>, script: &Script) -> fmt::Result {
    f.write_str("records")?;
    for record in script.entries.as_slice() {
        write!(f, " {}:{:?}", record.unit, record.words.as_slice())?;
    }
    f.write_str(", buffers")?;
    for (length, words) in script
        .lengths
        .as_slice()
        .iter()
        .zip(script.start.as_slice())
    {
        write!(f, " {length}:{:?}", words.as_slice())?;
    }
    Ok(())
}

fn write_text<W: fmt::Write>(f: &mut fmt::Formatter<W>, alike: bool) -> fmt::Result {
    if alike {
        f.write_str("printed alike")
    } else {
        f.write_str("printed otherwise")
    }
}

impl fmt::Display for Answer {
    fn fmt<W: fmt::Write>(&self, f: &mut fmt::Formatter<W>) -> fmt::Result {
        match self {
            Answer::Worth(verdict) => write_verdict(f, *verdict),
            Answer::Text { alike } => write_text(f, *alike),
            Answer::Left(rest) => write_rest(f, rest),
            Answer::NoStep { entry } => write!(f, "no step at launch {entry}"),
            Answer::Says(script) => write_script(f, script),
            Answer::Unreadable { line } => write!(f, "unreadable line {line}"),
            Answer::NoSettings => f.write_str("no settings"),
            Answer::NoScript(fault) => write!(f, "no script: {fault:?}"),
            Answer::NoPlan => f.write_str("no plan"),
            Answer::Memory => f.write_str("memory"),
        }
    }
}

fn shape_of(alloc: Global, graph: Graph) -> Result<Shape, AllocError>
    ensures { IfOk result IsGoodShape }
{
    match graph {
        Graph::Splits => splits(alloc),
        Graph::Sheets => sheets(alloc),
    }
}

/// The journal of a text, or the answer that there is none.
fn journal_of(alloc: Global, text: &[u8], shape: &Shape) -> Result<Journal, Answer>
    requires { IsGoodShape shape.now }
    ensures { IfOk result (IsReport shape.now) }
{
    match read(alloc, text, shape) {
        Ok(journal) => Ok(journal),
        Err(JournalFault::Line { number }) => Err(Answer::Unreadable { line: number }),
        Err(JournalFault::Memory) => Err(Answer::Memory),
    }
}

/// Whether the journal of a text is printed as that text.
fn text_again(alloc: Global, shape: &Shape, text: &[u8]) -> Answer
    requires { IsGoodShape shape.now }
{
    let journal = match journal_of(alloc, text, shape) {
        Ok(journal) => journal,
        Err(answer) => return answer,
    };
    match print(alloc, &journal, shape) {
        Ok(printed) => Answer::Text {
            alike: printed.as_slice() == text,
        },
        Err(_) => Answer::Memory,
    }
}

/// What a journal of a script is worth for the counters of a graph.
fn worth(
    alloc: Global,
    shape: Shape,
    settings: &Settings,
    script: &Script,
    journal: &Journal,
) -> Answer
    requires good { IsGoodShape shape }
    requires fit { IsFit shape script.now }
    requires lengths { length script.now.lengths ≡ length shape.buffers }
    requires starts { length script.now.start ≡ length shape.buffers }
    requires report { IsReport shape journal.now }
{
    good_shapes_are_small();
    let Ok(plan) = plan(alloc, &shape, None, settings.workers) else {
        return Answer::NoPlan;
    };
    let bodies = Counters { alloc, shape };
    let verdict = verify(alloc, &bodies, script, journal, &plan, settings.limits);
    Answer::Worth(verdict)
}

fn asked_of(
    alloc: Global,
    shape: Shape,
    settings: &Settings,
    asked: Asked,
    script: &[u8],
    journal: &[u8],
) -> Answer
    requires { IsGoodShape shape }
{
    if let Asked::Text = asked {
        return text_again(alloc, &shape, journal);
    }
    let script = match read_script(alloc, script, &shape) {
        Ok(script) => script,
        Err(fault) => return Answer::NoScript(fault),
    };
    if let Asked::Script = asked {
        return Answer::Says(script);
    }
    let journal = match journal_of(alloc, journal, &shape) {
        Ok(journal) => journal,
        Err(answer) => return answer,
    };
    match asked {
        Asked::Rest => left_by(alloc, shape, settings.limits.turns, &script, &journal),
        _ => worth(alloc, shape, settings, &script, &journal),
    }
}

/// The answer to a row of these settings, script and journal.
pub fn answer_of(
    alloc: Global,
    settings: Option<Settings>,
    asked: Asked,
    script: &[u8],
    journal: &[u8],
) -> Answer {
    let Some(settings) = settings else {
        return Answer::NoSettings;
    };
    let Ok(shape) = shape_of(alloc, settings.graph) else {
        return Answer::Memory;
    };
    asked_of(alloc, shape, &settings, asked, script, journal)
}
