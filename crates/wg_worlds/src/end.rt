ghost use Rattle.std.specs.Prelude.{◌≡◌, IfOk};
ghost use Rattle.wg_machine.specs.Buffers.{Buffers};
ghost use Rattle.wg_machine.specs.LaunchMeaning.{outcome_of};
ghost use Rattle.wg_state.specs.Launching.{new_words, outcome_with};

use crate::sent::all_sent;
use std::alloc::{AllocError, Global};
use wg_machine::{Made, Unit};
use wg_state::World;
use wg_words::{TryCopy, WordLists, Words};

/// The new words of a record that the groups of a shared unit share.
fn shared_words(
    alloc: Global,
    is_shared: bool,
    inputs: &WordLists,
) -> Result<Option<Words>, AllocError>
    ensures { IfOk result (λ words. words ≡ new_words is_shared inputs.now) }
{
    if !is_shared {
        return Ok(None);
    }
    match inputs.get(0) {
        Some(words) => Ok(Some(words.copy(alloc)?)),
        None => Ok(Some(Words::new(alloc))),
    }
}

/// What a launch of a unit made, by the world that its lanes left, the turns that it had and those that are left. What it did to
/// the buffers is the memory's.
pub fn made_by(
    alloc: Global,
    unit: &Unit,
    turns: u64,
    world: &World,
    left: u64,
) -> Result<Made, AllocError>
    ensures { IfOk result (λ made. (buffers : Buffers) → outcome_with unit.now turns (record world.now { buffers = buffers }) left ≡ outcome_of made buffers) }
{
    Ok(Made {
        sent: all_sent(alloc, unit.outputs.as_slice(), world.grants.as_slice())?,
        denied: world.denied,
        turns: turns.saturating_sub(left),
        shared: shared_words(alloc, unit.shared, &world.inputs)?,
    })
}
