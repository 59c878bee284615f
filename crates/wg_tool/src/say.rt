ghost use Rattle.std.specs.Prelude.{◌≡◌, IfOk};
ghost use Rattle.wg_tool.specs.Answers.{WritesText, Concludes};
ghost use Rattle.wg_tool.specs.Headline.{read_fault_line, too_long_line};
ghost use Rattle.wg_tool.specs.Stages.{FaultSays};

use crate::answer::{Answer, Input};
use std::alloc::{AllocError, Global};
use wg_io::{FileFault, Sink, write_all};

/// Prints the text of an answer, and gives the answer.
pub fn say<S: Sink>(out: &mut S, text: &[u8], answer: Answer) -> Answer
    ensures { WritesText answer text.now (S.written out.old) (S.written out.new) (S.faults out.old) (S.faults out.new) result }
{
    match write_all(out, text) {
        Ok(()) => answer,
        Err(_) => Answer::WriteFault,
    }
}

fn read_fault_text(alloc: Global, name: &str) -> Result<Vec<u8>, AllocError>
    ensures { IfOk result (λ text. text.items ≡ read_fault_line name.now) }
{
    let mut text = Vec::new(alloc);
    text.extend_from_slice(b"read fault ")?;
    text.extend_from_slice(name.as_bytes())?;
    text.extend_from_slice(b"\n")?;
    Ok(text)
}

fn too_long_text(alloc: Global, name: &str, limit: u64) -> Result<Vec<u8>, AllocError>
    ensures { IfOk result (λ text. text.items ≡ too_long_line name.now limit) }
{
    let number = limit.to_string(alloc)?;
    let mut text = Vec::new(alloc);
    text.extend_from_slice(b"too long ")?;
    text.extend_from_slice(name.as_bytes())?;
    text.extend_from_slice(b" limit ")?;
    text.extend_from_slice(number.as_bytes())?;
    text.extend_from_slice(b"\n")?;
    Ok(text)
}

/// Prints that a file was not read.
pub fn say_fault<S: Sink>(
    alloc: Global,
    fault: FileFault,
    input: Input,
    name: &str,
    out: &mut S,
) -> Answer
    ensures { Concludes (FaultSays fault input name.now) (S.written out.old) (S.written out.new) (S.faults out.old) (S.faults out.new) result }
{
    match fault {
        FileFault::Failed => match read_fault_text(alloc, name) {
            Ok(text) => say(out, text.as_slice(), Answer::ReadFault { input }),
            Err(_) => Answer::OutOfMemory,
        },
        FileFault::TooLong { limit } => match too_long_text(alloc, name, limit) {
            Ok(text) => say(out, text.as_slice(), Answer::TooLong { input }),
            Err(_) => Answer::OutOfMemory,
        },
        FileFault::Memory => Answer::OutOfMemory,
    }
}
