ghost use Rattle.std.specs.Prelude.{◌≡◌, IfOk, length};
ghost use Rattle.wg_machine.specs.GoodShape.{IsGoodShape};
ghost use Rattle.wg_script.specs.Fit.{IsFit};

use crate::calls::call_all;
use crate::command::Command;
use crate::finish::{is_replayed, run_out};
use crate::settings::{Deed, Graph, Settings};
use crate::step::Step;
use std::alloc::{AllocError, Global};
use std::fmt;
use wg_adders::Adders;
use wg_buffers::Buffers;
use wg_counters::{Counters, sheets, splits};
use wg_engine::{Core, End, Report};
use wg_exchangers::forms;
use wg_kept::Keep;
use wg_machine::{Bodies, Shape, View};
use wg_plan::{good_shapes_are_small, plan};
use wg_script::{Script, ScriptFault, read_script};
use wg_words::TryCopy;

/// The answer to a row, or why there is none.
#[derive(Drop)]
pub enum Answer {
    Ran {
        steps: Vec<Step>,
        report: Report,
        kept: u64,
        /// Whether the plain program of the machine leaves the same.
        alike: bool,
        /// Whether a seed chose the order of the launches.
        random: bool,
    },
    NoSettings,
    NoScript(ScriptFault),
    Memory,
}

fn write_buffer<W: fmt::Write>(
    f: &mut fmt::Formatter<W>,
    buffers: &Buffers,
    place: u32,
) -> fmt::Result {
    f.write_str(" [")?;
    for word in 0..buffers.length(place) {
        if word > 0 {
            f.write_str(" ")?;
        }
        write!(f, "{}", buffers.word(place, word))?;
    }
    f.write_str("]")
}

fn write_end<W: fmt::Write>(f: &mut fmt::Formatter<W>, end: &End) -> fmt::Result {
    match end {
        End::Complete => f.write_str("complete"),
        End::Launches => f.write_str("launches spent"),
        End::Turns(_) => f.write_str("turns spent"),
        End::Open => f.write_str("open"),
    }
}

/// The numbers of a report that hang on the order of its launches.
fn write_numbers<W: fmt::Write>(
    f: &mut fmt::Formatter<W>,
    report: &Report,
    kept: u64,
) -> fmt::Result {
    let launches = report.journal.entries.len();
    let (peak, bytes) = (report.peak, report.bytes);
    write!(f, " launches {launches} peak {peak} of {bytes} kept {kept}")
}

/// Those that do not.
fn write_outcome<W: fmt::Write>(f: &mut fmt::Formatter<W>, report: &Report) -> fmt::Result {
    let (records, denied) = (report.records, report.denied);
    write!(f, " records {records} denied {denied}, buffers")?;
    write_buffer(f, &report.buffers, 0)?;
    write_buffer(f, &report.buffers, 1)
}

fn write_steps<W: fmt::Write>(f: &mut fmt::Formatter<W>, steps: &[Step]) -> fmt::Result {
    for step in steps {
        write!(f, "{step}, ")?;
    }
    Ok(())
}

fn write_alike<W: fmt::Write>(f: &mut fmt::Formatter<W>, alike: bool) -> fmt::Result {
    if alike {
        f.write_str(", replayed alike")
    } else {
        f.write_str(", replayed otherwise")
    }
}

impl fmt::Display for Answer {
    fn fmt<W: fmt::Write>(&self, f: &mut fmt::Formatter<W>) -> fmt::Result {
        match self {
            Answer::Ran {
                steps,
                report,
                kept,
                alike,
                random,
            } => {
                write_steps(f, steps.as_slice())?;
                write_end(f, &report.end)?;
                if !*random {
                    write_numbers(f, report, *kept)?;
                }
                write_outcome(f, report)?;
                write_alike(f, *alike)
            }
            Answer::NoSettings => f.write_str("no settings"),
            Answer::NoScript(fault) => write!(f, "no script: {fault:?}"),
            Answer::Memory => f.write_str("memory"),
        }
    }
}

/// A core at the start of a script, with room for so many launches out.
fn core_of<B: Bodies>(
    alloc: Global,
    bodies: &B,
    settings: &Settings,
    script: &Script,
) -> Result<Core<Keep>, AllocError>
    requires good { IsGoodShape (B.graph bodies.now) }
    requires fit { IsFit (B.graph bodies.now) script.now }
    requires lengths { length script.now.lengths ≡ length (B.graph bodies.now).buffers }
    requires starts { length script.now.start ≡ length (B.graph bodies.now).buffers }
    ensures { IfOk result (λ core. core.shape ≡ B.graph bodies.now) }
{
    good_shapes_are_small();
    let shape = bodies.shape().copy(alloc)?;
    let Ok(plan) = plan(alloc, &shape, None, settings.width) else {
        return Err(AllocError);
    };
    let entries = script.entries.copy(alloc)?;
    let buffers = Buffers::new(alloc, script.lengths.as_slice(), script.start.as_slice())?;
    let keep = Keep::new(alloc, shape, plan, entries, settings.limits)?;
    Ok(Core::begin(alloc, keep, buffers))
}

/// What a core of these bodies answers to commands, and what its run comes to.
fn driven<B: Bodies>(
    alloc: Global,
    bodies: &B,
    settings: &Settings,
    script: &Script,
    commands: &[Command],
) -> Result<Answer, AllocError>
    requires good { IsGoodShape (B.graph bodies.now) }
    requires fit { IsFit (B.graph bodies.now) script.now }
    requires lengths { length script.now.lengths ≡ length (B.graph bodies.now).buffers }
    requires starts { length script.now.start ≡ length (B.graph bodies.now).buffers }
{
    let mut core = core_of(alloc, bodies, settings, script)?;
    let steps = call_all(&mut core, bodies, commands)?;
    run_out(&mut core, bodies);
    let kept = core.kept();
    let report = core.finish();
    let alike = is_replayed(alloc, bodies, script, &report)?;
    let random = commands.iter().any(|command| matches!(
        command,
        Command::Random { seed: _, count: _ }
    ));
    Ok(Answer::Ran {
        steps,
        report,
        kept,
        alike,
        random,
    })
}

fn shape_of(alloc: Global, graph: Graph) -> Result<Shape, AllocError>
    ensures { IfOk result IsGoodShape }
{
    match graph {
        Graph::Forms => forms(alloc),
        Graph::Splits => splits(alloc),
        Graph::Sheets => sheets(alloc),
    }
}

fn driven_by(
    alloc: Global,
    shape: Shape,
    settings: &Settings,
    script: &Script,
    commands: &[Command],
) -> Result<Answer, AllocError>
    requires good { IsGoodShape shape }
    requires fit { IsFit shape script.now }
    requires lengths { length script.now.lengths ≡ length shape.buffers }
    requires starts { length script.now.start ≡ length shape.buffers }
{
    match settings.deed {
        Deed::Count => driven(
            alloc,
            &Counters { alloc, shape },
            settings,
            script,
            commands,
        ),
        Deed::Add => driven(alloc, &Adders { alloc, shape }, settings, script, commands),
    }
}

fn answer_by(alloc: Global, settings: &Settings, script: &[u8], commands: &[Command]) -> Answer {
    let Ok(shape) = shape_of(alloc, settings.graph) else {
        return Answer::Memory;
    };
    match read_script(alloc, script, &shape) {
        Err(fault) => Answer::NoScript(fault),
        Ok(script) => match driven_by(alloc, shape, settings, &script, commands) {
            Ok(answer) => answer,
            Err(_) => Answer::Memory,
        },
    }
}

/// The answer to a row of these settings, script and commands.
pub fn answer_of(
    alloc: Global,
    settings: Option<Settings>,
    script: &[u8],
    commands: &[Command],
) -> Answer {
    match settings {
        Some(settings) => answer_by(alloc, &settings, script, commands),
        None => Answer::NoSettings,
    }
}
