ghost use Rattle.std.specs.Prelude.{◌≡◌, ◌≤◌, ◌<◌, ◌+◌, ◌^◌, ◌++◌, codes, OnOk, IfOk};
ghost use Rattle.std.specs.Fmt.{decimal};
ghost use Rattle.std.specs.List.{flat_map, range_with_len};
ghost use Rattle.wg_words.specs.Each.{Each};
ghost use Rattle.wg_machine.specs.declared.launch.Entry.{Entry as EntryOf};
ghost use Rattle.wg_journal.specs.Names.{index_at};
ghost use Rattle.wg_journal.specs.Texts.{spaced, all_spaced, unit_label, launch_line, done_line, buffer_line, turns_line, launches_line, stop_line, perhaps, tail_text, report_text};

use crate::{BufferLine, Done, Journal, Stop, Tail};
use std::alloc::{AllocError, Global};
use wg_machine::{Entry, Shape};

fn push_number(alloc: Global, line: &mut Vec<u8>, n: u64) -> Result<(), AllocError>
    ensures { OnOk result (line.new.items ≡ line.old.items ++ decimal n) }
{
    let text = n.to_string(alloc)?;
    line.extend_from_slice(text.as_bytes())
}

fn push_spaced(alloc: Global, line: &mut Vec<u8>, n: u64) -> Result<(), AllocError>
    ensures { OnOk result (line.new.items ≡ line.old.items ++ spaced n) }
{
    line.push(b' ')?;
    push_number(alloc, line, n)
}

fn push_numbers(alloc: Global, line: &mut Vec<u8>, numbers: &[u64]) -> Result<(), AllocError>
    ensures { OnOk result (line.new.items ≡ line.old.items ++ all_spaced numbers.now) }
{
    for n in numbers {
        push_spaced(alloc, line, *n)?;
    }
    Ok(())
}

fn push_words(alloc: Global, line: &mut Vec<u8>, words: &[u32]) -> Result<(), AllocError>
    ensures { OnOk result (line.new.items ≡ line.old.items ++ all_spaced words.now) }
{
    for n in words {
        push_spaced(alloc, line, u64::from(*n))?;
    }
    Ok(())
}

/// The numbers of the records that a launch gave, which follow one another.
fn push_outs(alloc: Global, line: &mut Vec<u8>, first: u64, count: u32) -> Result<(), AllocError>
    requires { first + count ≤ 2 ^ 64 }
    ensures { OnOk result (line.new.items ≡ line.old.items ++ all_spaced (range_with_len first count)) }
{
    for place in 0..count {
        push_spaced(alloc, line, first + u64::from(place))?;
    }
    Ok(())
}

pub(crate) fn push_unit(
    alloc: Global,
    line: &mut Vec<u8>,
    shape: &Shape,
    unit: u32,
) -> Result<(), AllocError>
    ensures text { OnOk result (line.new.items ≡ line.old.items ++ unit_label shape.now unit) }
    ensures index { OnOk result (index_at shape.now unit < 2 ^ 64) }
{
    let Some(node) = shape.units.get(unit as usize) else {
        return Ok(());
    };
    let Some(name) = shape.nodes.get(node.node as usize) else {
        return Ok(());
    };
    line.extend_from_slice(name.name.as_slice())?;
    line.extend_from_slice(b"[")?;
    push_number(alloc, line, u64::from(name.index))?;
    line.extend_from_slice(b"]@")?;
    push_number(alloc, line, u64::from(node.level))
}

/// The line of the launch at a place of the journal, counted from 0.
///
/// A unit that the shape does not have is written as nothing.
pub fn line(alloc: Global, entry: &Entry, number: u64, shape: &Shape) -> Result<Vec<u8>, AllocError>
    requires { entry.now.first_out + entry.now.outs ≤ 2 ^ 64 }
    ensures { IfOk result (λ text. text.items ≡ launch_line shape.now number entry.now) }
{
    let mut line = Vec::new(alloc);
    push_number(alloc, &mut line, number)?;
    line.extend_from_slice(b" ")?;
    push_unit(alloc, &mut line, shape, entry.unit)?;
    line.extend_from_slice(b" g")?;
    push_words(alloc, &mut line, &entry.at)?;
    line.extend_from_slice(b" in")?;
    push_numbers(alloc, &mut line, entry.inputs.as_slice())?;
    line.extend_from_slice(b" out")?;
    push_outs(alloc, &mut line, entry.first_out, entry.outs)?;
    line.extend_from_slice(b"\n")?;
    Ok(line)
}

/// The line that follows the launches of a complete run.
pub fn done_text(alloc: Global, done: &Done) -> Result<Vec<u8>, AllocError>
    ensures { IfOk result (λ text. text.items ≡ done_line done.now) }
{
    let mut line = Vec::new(alloc);
    line.extend_from_slice(b"done launches")?;
    push_spaced(alloc, &mut line, done.launches)?;
    line.extend_from_slice(b" records")?;
    push_spaced(alloc, &mut line, done.records)?;
    line.extend_from_slice(b" denied")?;
    push_spaced(alloc, &mut line, done.denied)?;
    line.extend_from_slice(b" peak")?;
    push_spaced(alloc, &mut line, done.peak)?;
    line.extend_from_slice(b" of")?;
    push_spaced(alloc, &mut line, done.bytes)?;
    line.extend_from_slice(b"\n")?;
    Ok(line)
}

fn push_buffer(alloc: Global, text: &mut Vec<u8>, buffer: &BufferLine) -> Result<(), AllocError>
    ensures { OnOk result (text.new.items ≡ text.old.items ++ buffer_line buffer.now) }
{
    text.extend_from_slice(b"buffer ")?;
    text.extend_from_slice(buffer.name.as_slice())?;
    push_spaced(alloc, text, buffer.count)?;
    push_words(alloc, text, buffer.words.as_slice())?;
    text.extend_from_slice(b"\n")
}

fn push_buffers(alloc: Global, text: &mut Vec<u8>, buffers: &[BufferLine]) -> Result<(), AllocError>
    ensures { OnOk result (text.new.items ≡ text.old.items ++ flat_map buffer_line buffers.now) }
{
    for buffer in buffers {
        push_buffer(alloc, text, buffer)?;
    }
    Ok(())
}

fn turns_text(
    alloc: Global,
    turns: u64,
    unit: u32,
    group: &[u32],
    inputs: &[u64],
    shape: &Shape,
) -> Result<Vec<u8>, AllocError>
    ensures { IfOk result (λ text. text.items ≡ turns_line shape.now turns unit group.now inputs.now) }
{
    let mut line = Vec::new(alloc);
    line.extend_from_slice(b"stopped turns")?;
    push_spaced(alloc, &mut line, turns)?;
    line.extend_from_slice(b" ")?;
    push_unit(alloc, &mut line, shape, unit)?;
    line.extend_from_slice(b" g")?;
    push_words(alloc, &mut line, group)?;
    line.extend_from_slice(b" in")?;
    push_numbers(alloc, &mut line, inputs)?;
    line.extend_from_slice(b"\n")?;
    Ok(line)
}

fn launches_text(alloc: Global, launches: u64) -> Result<Vec<u8>, AllocError>
    ensures { IfOk result (λ text. text.items ≡ launches_line launches) }
{
    let mut line = Vec::new(alloc);
    line.extend_from_slice(b"stopped launches")?;
    push_spaced(alloc, &mut line, launches)?;
    line.extend_from_slice(b"\n")?;
    Ok(line)
}

/// The line of an early stop.
pub fn stop_text(alloc: Global, stop: &Stop, shape: &Shape) -> Result<Vec<u8>, AllocError>
    ensures { IfOk result (λ text. text.items ≡ stop_line shape.now stop.now) }
{
    match stop {
        Stop::Turns {
            turns,
            unit,
            group,
            inputs,
        } => turns_text(alloc, *turns, *unit, group, inputs.as_slice(), shape),
        Stop::Launches { launches } => launches_text(alloc, *launches),
    }
}

fn push_done(alloc: Global, text: &mut Vec<u8>, done: &Option<Done>) -> Result<(), AllocError>
    ensures { OnOk result (text.new.items ≡ text.old.items ++ perhaps done_line done.now) }
{
    let Some(done) = done else {
        return Ok(());
    };
    text.extend_from_slice(done_text(alloc, done)?.as_slice())
}

fn push_tail(
    alloc: Global,
    text: &mut Vec<u8>,
    tail: &Tail,
    shape: &Shape,
) -> Result<(), AllocError>
    ensures { OnOk result (text.new.items ≡ text.old.items ++ tail_text shape.now tail.now) }
{
    push_done(alloc, text, &tail.done)?;
    push_buffers(alloc, text, tail.buffers.as_slice())?;
    let Some(stop) = &tail.stop else {
        return Ok(());
    };
    text.extend_from_slice(stop_text(alloc, stop, shape)?.as_slice())
}

/// The report of a journal: the one text of it.
pub fn print(alloc: Global, journal: &Journal, shape: &Shape) -> Result<Vec<u8>, AllocError>
    requires { Each (λ (e : EntryOf). e.first_out + e.outs ≤ 2 ^ 64) journal.now.entries }
    ensures { IfOk result (λ text. text.items ≡ report_text shape.now journal.now) }
{
    let mut text = Vec::new(alloc);
    let mut number = 0u64;
    for entry in journal.entries.as_slice() {
        let launch = line(alloc, entry, number, shape)?;
        text.extend_from_slice(launch.as_slice())?;
        number += 1;
    }
    push_tail(alloc, &mut text, &journal.tail, shape)?;
    Ok(text)
}
