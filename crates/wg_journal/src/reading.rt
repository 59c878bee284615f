ghost use Rattle.std.specs.Prelude.{◌≡◌, ℕ, List, IfOk, Some, None, Err};
ghost use Rattle.wg_machine.specs.GoodShape.{IsGoodShape};
ghost use Rattle.wg_machine.specs.declared.journal.Journal.{Journal as JournalOf};
ghost use Rattle.wg_journal.specs.Names.{unit_in};
ghost use Rattle.wg_text.specs.Refusals.{YieldsWith};
ghost use Rattle.wg_journal.specs.Reading.{is_unended, with_line, step};
ghost use Rattle.wg_journal.specs.Report.{IsReport, IsFirstBadLine, ReadsAs};
ghost use Rattle.wg_journal.specs.Texts.{report_text};

use crate::fields::Fields;
use crate::lines::{Line, line_of};
use crate::names::UnitNames;
use crate::{BufferLines, Journal, JournalFault, Tail};
use std::alloc::Global;
use wg_machine::{EntryList, Shape};
use wg_text::{Refusal, Separator, cut};

/// Whether launches may still follow.
fn is_open(tail: &Tail) -> bool
    ensures { result ≡ is_unended tail.now }
{
    tail.done.is_none() && tail.stop.is_none()
}

/// Adds a line to a journal, where it may follow. After an error the journal is only dropped.
fn extend(journal: &mut Journal, line: Line) -> Result<(), Refusal>
    ensures { YieldsWith (λ _. journal.new) result (with_line journal.old line) }
{
    match line {
        Line::Launch(entry) if is_open(&journal.tail) => journal.entries.push(entry)?,
        Line::Done(done) if is_open(&journal.tail) => journal.tail.done = Some(done),
        Line::Buffer(buffer) if journal.tail.done.is_some() => journal.tail.buffers.push(buffer)?,
        Line::Stop(stop) if is_open(&journal.tail) => journal.tail.stop = Some(stop),
        _ => return Err(Refusal::Form),
    }
    Ok(())
}

/// YieldsAnd the line in front of a text into a journal, and gives what follows the line.
#[tactic(auto, unfolding(crate::specs::Reading::step))]
fn read_line<'a>(
    alloc: Global,
    names: &UnitNames,
    journal: &mut Journal,
    text: &'a [u8],
) -> Result<&'a [u8], Refusal>
    ensures { YieldsWith (λ rest. (journal.new, rest.now)) result (step (unit_in names.now) journal.old text.now) }
{
    let (line, rest) = cut(text, Separator::Byte(b'\n')).ok_or(Refusal::Form)?;
    let place = journal.entries.len() as u64;
    let line = line_of(alloc, names, place, &mut Fields::new(line))?;
    extend(journal, line)?;
    Ok(rest)
}

/// The journal that a text is the report of, each byte of it.
pub fn read(alloc: Global, text: &[u8], shape: &Shape) -> Result<Journal, JournalFault>
    requires { IsGoodShape shape.now }

    // What is read is a report, and the text is its text.
    ensures found { IfOk result (λ j. IsReport shape.now j × (text.now ≡ report_text shape.now j)) }

    // A report's text is read as that report, unless memory runs out.
    ensures only { (j : JournalOf) → IsReport shape.now j → text.now ≡ report_text shape.now j → ReadsAs j result }

    // Which line it is that no report has there.
    ensures line { (number : ℕ) → result ≡ Err (JournalFault.Line number) → IsFirstBadLine shape.now text.now number }
{
    let names = UnitNames::new(alloc, shape)?;
    let mut journal = Journal {
        entries: EntryList::new(alloc),
        tail: Tail {
            done: None,
            buffers: BufferLines::new(alloc),
            stop: None,
        },
    };
    let mut rest = text;
    let mut number = 1u64;
    while !rest.is_empty() {
        match read_line(alloc, &names, &mut journal, rest) {
            Ok(after) => rest = after,
            Err(Refusal::Form) => return Err(JournalFault::Line { number }),
            Err(Refusal::Memory) => return Err(JournalFault::Memory),
        }
        number += 1;
    }
    Ok(journal)
}
