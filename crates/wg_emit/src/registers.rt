ghost use Rattle.std.specs.Prelude.{◌≡◌, ◌+◌, IfOk, replicate, slice_index};
ghost use Rattle.wg_lowered.specs.Where.{run as run_of};
ghost use Rattle.wg_typed.specs.Layout.{words_in};

use std::alloc::{AllocError, Global};
use wg_words::Words;

/// The register so many behind another. There is no memory for one above 2^32.
pub fn forward(register: u32, more: u64) -> Result<u32, AllocError>
    ensures { IfOk result (λ r. r ≡ register + more) }
{
    match u64::from(register).checked_add(more) {
        Some(at) => match u32::try_from(at) {
            Ok(at) => Ok(at),
            Err(_) => Err(AllocError),
        },
        None => Err(AllocError),
    }
}

/// So many registers one after another.
#[tactic(auto, using(crate::proofs::Runs::run_goes_on))]
pub fn run(alloc: Global, at: u32, count: u64) -> Result<Words, AllocError>
    ensures { IfOk result (λ list. list ≡ run_of at count) }
{
    let mut list = Words::new(alloc);
    for i in 0..count {
        let register = forward(at, i)?;
        list.push(register)?;
    }
    Ok(list)
}

/// One register so many times.
pub fn repeat(alloc: Global, register: u32, count: u32) -> Result<Words, AllocError>
    ensures { IfOk result (λ list. list ≡ replicate count register) }
{
    let mut list = Words::new(alloc);
    for _i in 0..count {
        list.push(register)?;
    }
    Ok(list)
}

/// One of some registers; 0 behind the last.
pub fn register_at(registers: &Words, at: u32) -> u32
    ensures { result ≡ slice_index registers.now at }
{
    let registers = registers.as_slice();
    if (at as usize) < registers.len() {
        registers[at as usize]
    } else {
        0
    }
}

/// The registers of a part of a value.
pub fn cut(alloc: Global, registers: &Words, from: u64, to: u64) -> Result<Words, AllocError>
    ensures { IfOk result (λ list. list ≡ words_in (record { from = from; to = to }) registers.now) }
{
    let list = registers.as_slice();
    let length = list.len() as u64;
    if from >= to || from >= length {
        return Ok(Words::new(alloc));
    }
    let end = to.min(length);
    Words::from_slice(alloc, &list[from as usize..end as usize])
}
