ghost use Rattle.std.specs.Prelude.{◌≡◌, IfOk, map};
ghost use Rattle.wg_machine.specs.declared.launch.Record.{Record as OfRecord};
ghost use Rattle.wg_state.specs.Launching.{world_before};

use std::alloc::{AllocError, Global};
use wg_machine::{Launch, Record, Unit};
use wg_state::World;
use wg_words::{Items, TryCopy, WordLists};

fn record_words(alloc: Global, records: &[Record]) -> Result<WordLists, AllocError>
    ensures { IfOk result (λ list. list ≡ map (λ (r : OfRecord). r.words) records.now) }
{
    let mut list = WordLists::new(alloc);
    for record in records {
        list.push(record.words.copy(alloc)?)?;
    }
    Ok(list)
}

/// What the lanes of a launch of a unit share before they run: groupshared variables of these words, its records' words,
/// its unit's budgets and these buffers.
pub fn first_world(
    alloc: Global,
    shared: WordLists,
    unit: &Unit,
    launch: &Launch,
    buffers: WordLists,
) -> Result<World, AllocError>
    ensures { IfOk result (λ w. w ≡ world_before shared unit.now launch.now buffers) }
{
    Ok(World {
        shared,
        inputs: record_words(alloc, launch.records.as_slice())?,
        grants: Items::new(alloc),
        left: unit.budgets.copy(alloc)?,
        denied: 0,
        buffers,
    })
}
