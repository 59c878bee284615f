ghost use Rattle.std.specs.Prelude.{◌≡◌, OnOk};
ghost use Rattle.wg_exchangers.specs.Exchanging.{after, begun, exchanged_by, Changes};

use crate::form::{Before, Form};
use std::alloc::AllocError;
use wg_machine::Memory;

#[tactic(auto, using(crate::proofs::Changing::same_trace, crate::proofs::Changing::load_changes, crate::proofs::Changing::store_changes, crate::proofs::Changing::add_changes))]
fn begin<M: Memory>(mem: &mut M, form: &Form) -> Result<(), AllocError>
    ensures { OnOk result (Changes (begun form.now.before form.now.word) (M.trace mem.old) (M.trace mem.new)) }
{
    match form.before {
        Before::Nothing => Ok(()),
        Before::Load => {
            mem.load(0, form.word)?;
            Ok(())
        }
        Before::Store(value) => mem.store(0, form.word, value),
        Before::Add(value) => mem.add(0, form.word, value),
    }
}

/// The form, then what it found and what it left, in the second buffer.
fn exchange<M: Memory>(mem: &mut M, form: &Form) -> Result<(), AllocError>
    ensures { OnOk result (Changes (exchanged_by form.now) (M.trace mem.old) (M.trace mem.new)) }
{
    let found = mem.interlocked(form.op, 0, form.word, form.compare, form.value)?;
    let left = mem.load(0, form.word)?;
    mem.store(1, 0, found)?;
    mem.store(1, 1, left)?;
    Ok(())
}

/// All that a launch does to the buffers.
#[tactic(auto, using(crate::proofs::Changing::after_changes))]
pub fn perform<M: Memory>(mem: &mut M, form: &Form) -> Result<(), AllocError>
    ensures { OnOk result (Changes (after form.now) (M.trace mem.old) (M.trace mem.new)) }
{
    begin(mem, form)?;
    exchange(mem, form)?;
    Ok(())
}
