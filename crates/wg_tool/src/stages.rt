ghost use Rattle.wg_tool.specs.Answers.{Concludes};
ghost use Rattle.wg_tool.specs.FirstForm.{IsFirstForm};
ghost use Rattle.wg_tool.specs.Headline.{RunSays};
ghost use Rattle.wg_tool.specs.Running.{IsRunnable};
ghost use Rattle.wg_tool.specs.Sending.{sender};
ghost use Rattle.wg_tool.specs.Stages.{RanSays, ScriptSays, FileSays};

use crate::answer::{Answer, BAD_SCRIPT, Input, REFUSED};
use crate::bodies::Senders;
use crate::ending::done_of;
use crate::graph::read_graph;
use crate::pair::Pair;
use crate::print::{PrintFault, print_report};
use crate::run::run_script;
use crate::say::{say, say_fault};
use crate::script::read_script;
use crate::senders::senders_of;
use crate::wiring::targets_of;
use std::alloc::Global;
use wg_io::{Files, Sink};
use wg_machine::Entries;
use wg_words::limits::MOST_FILE_BYTES;

/// Runs entry records through a graph, and prints the report.
fn run_entries<S: Sink>(alloc: Global, senders: &Senders, entries: Entries, out: &mut S) -> Answer
    requires { IsRunnable senders.now.shape entries }
    ensures { Concludes (RanSays senders.now.shape (sender senders.now.targets senders.now.adds) entries) (S.written out.old) (S.written out.new) (S.faults out.old) (S.faults out.new) result }
{
    let Ok(report) = run_script(alloc, senders, entries) else {
        return Answer::OutOfMemory;
    };
    let done = done_of(&report);
    match print_report(
        alloc,
        &senders.shape,
        report.journal.entries.as_slice(),
        &done,
        out,
    ) {
        Ok(()) => Answer::Done,
        Err(PrintFault::Write) => Answer::WriteFault,
        Err(PrintFault::Memory) => Answer::OutOfMemory,
    }
}

/// Runs a script's bytes over a graph.
fn run_bytes<S: Sink>(alloc: Global, pairs: &[Pair], script: &[u8], out: &mut S) -> Answer
    requires { IsFirstForm pairs.now }
    ensures { Concludes (ScriptSays pairs.now script.now) (S.written out.old) (S.written out.new) (S.faults out.old) (S.faults out.new) result }
{
    let Ok(targets) = targets_of(alloc, pairs) else {
        return Answer::OutOfMemory;
    };
    match read_script(alloc, pairs, targets.as_slice(), script) {
        Err(_) => Answer::OutOfMemory,
        Ok(None) => say(out, BAD_SCRIPT, Answer::BadScript),
        Ok(Some(entries)) => match senders_of(alloc, pairs, &targets) {
            Err(_) => Answer::OutOfMemory,
            Ok(senders) => run_entries(alloc, &senders, entries, out),
        },
    }
}

/// Reads a script's file, and runs its bytes over a graph.
fn answer_script<F: Files, S: Sink>(
    alloc: Global,
    name: &str,
    pairs: &[Pair],
    files: &mut F,
    out: &mut S,
) -> Answer
    requires { IsFirstForm pairs.now }
    ensures { Concludes (FileSays
        (record { told = F.told files.old; faults = F.faults files.old; taken = F.taken files.old })
        (record { told = F.told files.new; faults = F.faults files.new; taken = F.taken files.new }) pairs.now name.now)
        (S.written out.old) (S.written out.new) (S.faults out.old) (S.faults out.new) result }
{
    match files.read(alloc, name, MOST_FILE_BYTES) {
        Ok(bytes) => run_bytes(alloc, pairs, bytes.as_slice(), out),
        Err(fault) => say_fault(alloc, fault, Input::Script, name, out),
    }
}

/// Reads a graph's file and then a script's, and runs the script over the graph.
pub fn answer_run<F: Files, S: Sink>(
    alloc: Global,
    graph: &str,
    script: &str,
    files: &mut F,
    out: &mut S,
) -> Answer
    ensures { Concludes (RunSays
        (record { told = F.told files.old; faults = F.faults files.old; taken = F.taken files.old })
        (record { told = F.told files.new; faults = F.faults files.new; taken = F.taken files.new }) graph.now script.now)
        (S.written out.old) (S.written out.new) (S.faults out.old) (S.faults out.new) result }
{
    match files.read(alloc, graph, MOST_FILE_BYTES) {
        Err(fault) => say_fault(alloc, fault, Input::Graph, graph, out),
        Ok(bytes) => match read_graph(alloc, bytes.as_slice()) {
            Err(_) => Answer::OutOfMemory,
            Ok(None) => say(out, REFUSED, Answer::Refused),
            Ok(Some(pairs)) => answer_script(alloc, script, pairs.as_slice(), files, out),
        },
    }
}
