ghost use Rattle.std.specs.Prelude.{◌≡◌, List, ℕ, IfSome, IfNone};
ghost use Rattle.wg_machine.specs.declared.launch.Sent.{Sent as SentOf};
ghost use Rattle.wg_tool.specs.declared.pair.Pair.{Pair as PairOf};
ghost use Rattle.wg_tool.specs.Answers.{Concludes, status_of};
ghost use Rattle.wg_tool.specs.Headline.{AreRun, CommandSays, Headline, IsFineRun, Completes, texts_of};

use crate::answer::{Answer, USAGE};
use crate::say::say;
use crate::stages::answer_run;
use std::alloc::Global;
use wg_io::{Files, Sink};

/// An exit status.
#[derive(Clone, Copy, Debug, PartialEq, Eq)]
pub struct Status(pub u8);

/// The names of the graph's and the script's file.
fn names_of(words: &[String]) -> Option<(&str, &str)>
    ensures some { IfSome result (λ p. AreRun (texts_of words.now) p.0.now p.1.now) }
    ensures none { IfNone result ((g : List ℕ) (s : List ℕ) → AreRun (texts_of words.now) g s → ⊥) }
{
    match words {
        [first, graph, script] => {
            if first.as_str() == "run" {
                Some((graph.as_str(), script.as_str()))
            } else {
                None
            }
        }
        _ => None,
    }
}

/// Does what the words ask for.
fn answer<F: Files, S: Sink>(alloc: Global, words: &[String], files: &mut F, out: &mut S) -> Answer
    ensures { Concludes (CommandSays (texts_of words.now)
        (record { told = F.told files.old; faults = F.faults files.old; taken = F.taken files.old })
        (record { told = F.told files.new; faults = F.faults files.new; taken = F.taken files.new }))
        (S.written out.old) (S.written out.new) (S.faults out.old) (S.faults out.new) result }
{
    match names_of(words) {
        Some((graph, script)) => answer_run(alloc, graph, script, files, out),
        None => say(out, USAGE, Answer::Usage),
    }
}

fn number_of(answer: Answer) -> u8
    ensures { result ≡ status_of answer }
{
    match answer {
        Answer::Done => 0,
        Answer::Refused => 1,
        Answer::Usage => 2,
        Answer::BadScript => 3,
        Answer::ReadFault { input: _ } => 6,
        Answer::WriteFault => 7,
        Answer::OutOfMemory => 8,
        Answer::TooLong { input: _ } => 10,
    }
}

/// Does what the words of a command line ask for, with the files and the sink that are handed in, and gives the exit
/// status.
///
/// `run GRAPH SCRIPT` reads a graph and a script of the first form, runs the script over the graph with one worker,
/// and prints the report of the run.
pub fn steady<F: Files, S: Sink>(
    alloc: Global,
    words: &[String],
    files: &mut F,
    out: &mut S,
) -> Status
    ensures headline { Headline (texts_of words.now)
        (record { told = F.told files.old; faults = F.faults files.old; taken = F.taken files.old })
        (record { told = F.told files.new; faults = F.faults files.new; taken = F.taken files.new })
        (record { written = S.written out.old; faults = S.faults out.old })
        (record { written = S.written out.new; faults = S.faults out.new }) result.0 }
    ensures complete { (pairs : List PairOf) (entries : List SentOf) → IsFineRun (texts_of words.now)
        (record { told = F.told files.old; faults = F.faults files.old; taken = F.taken files.old })
        (record { told = F.told files.new; faults = F.faults files.new; taken = F.taken files.new })
        (record { written = S.written out.old; faults = S.faults out.old })
        (record { written = S.written out.new; faults = S.faults out.new }) pairs entries
        → Completes (record { written = S.written out.old; faults = S.faults out.old }) (record { written = S.written out.new; faults = S.faults out.new }) pairs entries result.0 }
{
    Status(number_of(answer(alloc, words, files, out)))
}
