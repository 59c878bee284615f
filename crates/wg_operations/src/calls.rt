ghost use Rattle.std.specs.Prelude.{◌≡◌, [], IfOk, List, ℕ, map, drop, slice_index};
ghost use Rattle.wg_code.specs.Functions.{first_registers};
ghost use Rattle.wg_code.specs.Lane.{set_all};

use sqlite_items::Items;
use std::alloc::{AllocError, Global};
use wg_registers::{put, word};
use wg_words::{Word, Words};

/// Lists of registers that calls have given back.
pub type Spare = Items<Words>;

/// An argument's word, 0 behind the last.
fn argument(args: &[u32], registers: &[Word], at: u32) -> Word
    ensures { result ≡ slice_index (map (λ (r : ℕ). slice_index registers.now r) args.now) at }
{
    if (at as usize) < args.len() {
        word(registers, args[at as usize])
    } else {
        0
    }
}

/// An empty list, with the room of one that was used before.
fn empty(alloc: Global, spare: &mut Spare) -> Vec<Word>
    ensures { result.items ≡ [] }
{
    match spare.pop() {
        Some(words) => {
            let mut list = words.into_vec();
            list.clear();
            list
        }
        None => Vec::new(alloc),
    }
}

/// The registers that a function begins with: its arguments, then zeros.
pub fn window(
    alloc: Global,
    spare: &mut Spare,
    count: u32,
    args: &[u32],
    registers: &[Word],
) -> Result<Vec<Word>, AllocError>
    ensures { IfOk result (λ list. list.items ≡ first_registers count (map (λ (r : ℕ). slice_index registers.now r) args.now)) }
{
    let mut list = empty(alloc, spare);
    for at in 0..count {
        list.push(argument(args, registers, at))?;
    }
    Ok(list)
}

/// Copies a function's results back, in order; they are its last registers.
pub fn put_results(registers: &mut [Word], results: &[u32], values: &[Word], first: u32)
    ensures { registers.new ≡ set_all registers.old results.now (drop first values.now) }
{
    let mut at = first as usize;
    for r in results {
        if at >= values.len() {
            return;
        }
        put(registers, *r, values[at]);
        at += 1;
    }
}
