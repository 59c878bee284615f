ghost use Rattle.std.specs.Prelude.{◌≡◌, false, Ok, OnOk};
ghost use Rattle.wg_code.specs.Functions.{missing};
ghost use Rattle.wg_code.specs.OpMeaning.{does};
ghost use Rattle.wg_code.specs.declared.op.Op.TheOpen.{Op-F};
ghost use Rattle.wg_registers.specs.Given.{around_of};
ghost use Rattle.wg_operations.specs.Says.{Runs, Keeps};

use crate::end::End;
use crate::shared::Form;
use wg_machine::{Halt, Memory};
use wg_registers::{Around, Outside, interlocked_form, put, word};
use wg_words::Word;

/// `BufferGet`.
pub fn get_buffer<M: Memory>(
    around: &Around<'_>,
    registers: &mut [Word],
    s: &Outside,
    mem: &mut M,
    d: u32,
    buffer: u32,
    at: u32,
) -> Result<End, Halt>
    ensures says { Runs (does (around_of around.now) (λ f. missing false) (Op-F.BufferGet d buffer at)) registers.old s.now (M.trace mem.old) result registers.new s.now (M.trace mem.new) }
    ensures grows { Keeps result (M.trace mem.old) (M.trace mem.new) }
{
    let _ = around;
    let _ = s;
    let index = word(registers, at);
    let value = mem.load(buffer, index)?;
    put(registers, d, value);
    Ok(End::Through)
}

/// `BufferPut`.
pub fn set_buffer<M: Memory>(
    around: &Around<'_>,
    registers: &[Word],
    s: &Outside,
    mem: &mut M,
    buffer: u32,
    at: u32,
    a: u32,
) -> Result<End, Halt>
    ensures says { Runs (does (around_of around.now) (λ f. missing false) (Op-F.BufferPut buffer at a)) registers.now s.now (M.trace mem.old) result registers.now s.now (M.trace mem.new) }
    ensures grows { Keeps result (M.trace mem.old) (M.trace mem.new) }
    ensures silent { OnOk result ((M.trace mem.new).log ≡ (M.trace mem.old).log) }
{
    let _ = around;
    let _ = s;
    let index = word(registers, at);
    let value = word(registers, a);
    mem.store(buffer, index, value)?;
    Ok(End::Through)
}

/// `BufferAdd`.
pub fn add_to_buffer<M: Memory>(
    around: &Around<'_>,
    registers: &[Word],
    s: &Outside,
    mem: &mut M,
    buffer: u32,
    at: u32,
    a: u32,
) -> Result<End, Halt>
    ensures says { Runs (does (around_of around.now) (λ f. missing false) (Op-F.BufferAdd buffer at a)) registers.now s.now (M.trace mem.old) result registers.now s.now (M.trace mem.new) }
    ensures grows { Keeps result (M.trace mem.old) (M.trace mem.new) }
    ensures silent { OnOk result ((M.trace mem.new).log ≡ (M.trace mem.old).log) }
{
    let _ = around;
    let _ = s;
    let index = word(registers, at);
    let value = word(registers, a);
    mem.add(buffer, index, value)?;
    Ok(End::Through)
}

/// `BufferAtomic`.
pub fn exchange_in_buffer<M: Memory>(
    around: &Around<'_>,
    registers: &mut [Word],
    s: &Outside,
    mem: &mut M,
    d: u32,
    buffer: u32,
    at: u32,
    form: Form,
) -> Result<End, Halt>
    ensures says { Runs (does (around_of around.now) (λ f. missing false) (Op-F.BufferAtomic form.op d buffer at form.compare form.value)) registers.old s.now (M.trace mem.old) result registers.new s.now (M.trace mem.new) }
    ensures grows { Keeps result (M.trace mem.old) (M.trace mem.new) }
{
    let _ = around;
    let _ = s;
    let index = word(registers, at);
    let compare = word(registers, form.compare);
    let value = word(registers, form.value);
    let old = mem.interlocked(interlocked_form(form.op), buffer, index, compare, value)?;
    put(registers, d, old);
    Ok(End::Through)
}

/// `BufferLength`. No write changes it.
#[tactic(auto, using(crate::proofs::Worlds::length_now))]
pub fn length_of_buffer<M: Memory>(
    around: &Around<'_>,
    registers: &mut [Word],
    s: &Outside,
    mem: &M,
    d: u32,
    buffer: u32,
) -> End
    ensures says { Runs (does (around_of around.now) (λ f. missing false) (Op-F.BufferLength d buffer)) registers.old s.now (M.trace mem.now) (Ok result) registers.new s.now (M.trace mem.now) }
{
    let _ = around;
    let _ = s;
    put(registers, d, mem.length(buffer));
    End::Through
}
