ghost use Rattle.std.specs.Prelude.{◌≡◌, ◌≤◌, ◌<◌, ◌+◌, ◌^◌, ℕ, length, OnOk, OnErr, IsErrOf};
ghost use Rattle.wg_words.specs.Each.{Each};
ghost use Rattle.wg_io.specs.Causes.{RoseOnce, Appends, AppendsFront};
ghost use Rattle.wg_machine.specs.declared.launch.Entry.{Entry as EntryOf};
ghost use Rattle.wg_journal.specs.Texts.{launch_lines, done_line};
ghost use Rattle.wg_tool.specs.Report.{complete_report};

use std::alloc::Global;
use wg_io::{Sink, write_all};
use wg_journal::{Done, done_text, line};
use wg_machine::{Entry, Shape};

/// Why a text was not printed.
#[derive(Clone, Copy, Debug, PartialEq, Eq)]
pub enum PrintFault {
    Write,
    Memory,
}

/// Prints the lines of the launches of a journal.
fn print_lines<S: Sink>(
    alloc: Global,
    shape: &Shape,
    entries: &[Entry],
    out: &mut S,
) -> Result<(), PrintFault>
    requires { Each (λ (e : EntryOf). e.first_out + e.outs ≤ 2 ^ 64) entries.now }
    ensures whole { OnOk result (Appends (S.written out.old) (S.written out.new) (launch_lines shape.now 0 entries.now)) }
    ensures front { OnErr result (AppendsFront (S.written out.old) (S.written out.new) (launch_lines shape.now 0 entries.now)) }
    ensures same { OnOk result (S.faults out.new ≡ S.faults out.old) }
    ensures failed { IsErrOf result PrintFault.Write → RoseOnce (S.faults out.old) (S.faults out.new) }
    ensures memory { IsErrOf result PrintFault.Memory → S.faults out.new ≡ S.faults out.old }
{
    for (place, entry) in entries.iter().enumerate() {
        let Ok(text) = line(alloc, entry, place as u64, shape) else {
            return Err(PrintFault::Memory);
        };
        let Ok(()) = write_all(out, text.as_slice()) else {
            return Err(PrintFault::Write);
        };
    }
    Ok(())
}

/// Prints the line that ends a report.
fn print_done<S: Sink>(alloc: Global, done: &Done, out: &mut S) -> Result<(), PrintFault>
    ensures whole { OnOk result (Appends (S.written out.old) (S.written out.new) (done_line done.now)) }
    ensures front { OnErr result (AppendsFront (S.written out.old) (S.written out.new) (done_line done.now)) }
    ensures same { OnOk result (S.faults out.new ≡ S.faults out.old) }
    ensures failed { IsErrOf result PrintFault.Write → RoseOnce (S.faults out.old) (S.faults out.new) }
    ensures memory { IsErrOf result PrintFault.Memory → S.faults out.new ≡ S.faults out.old }
{
    let Ok(text) = done_text(alloc, done) else {
        return Err(PrintFault::Memory);
    };
    match write_all(out, text.as_slice()) {
        Ok(()) => Ok(()),
        Err(_) => Err(PrintFault::Write),
    }
}

/// Prints the report of a complete run, line by line.
pub fn print_report<S: Sink>(
    alloc: Global,
    shape: &Shape,
    entries: &[Entry],
    done: &Done,
    out: &mut S,
) -> Result<(), PrintFault>
    requires { Each (λ (e : EntryOf). e.first_out + e.outs ≤ 2 ^ 64) entries.now }
    ensures whole { OnOk result (Appends (S.written out.old) (S.written out.new) (complete_report shape.now entries.now done.now)) }
    ensures front { OnErr result (AppendsFront (S.written out.old) (S.written out.new) (complete_report shape.now entries.now done.now)) }
    ensures same { OnOk result (S.faults out.new ≡ S.faults out.old) }
    ensures failed { IsErrOf result PrintFault.Write → RoseOnce (S.faults out.old) (S.faults out.new) }
    ensures memory { IsErrOf result PrintFault.Memory → S.faults out.new ≡ S.faults out.old }
{
    print_lines(alloc, shape, entries, out)?;
    print_done(alloc, done, out)
}
