ghost use Rattle.std.specs.Prelude.{◌≡◌, ◌≢◌, ◌≤◌, ◌<◌, ◌^◌, ◌++◌, ◌↔◌, length, take, drop, map, IfOk, IsTrue, None};
ghost use Rattle.wg_words.specs.Each.{Each};
ghost use Rattle.wg_machine.specs.Grids.{place_of};
ghost use Rattle.wg_store.specs.Items.{AreAtPlaces, AreIn, first_of, grid_in, launch_by, record_in};

use crate::finding::find;
use crate::item::Item;
use std::alloc::{AllocError, Global};
use wg_machine::{Launch, Record, Records, Shape, linear_place};
use wg_standing::Pending;
use wg_words::TryCopy;

/// The launch of a launch out, with the words, the grid and the `last` of now.
pub fn launch_of(
    alloc: Global,
    shape: &Shape,
    entries: &[Item],
    slots: &[Item],
    pending: &Pending,
) -> Result<Launch, AllocError>
    requires places { AreAtPlaces 0 entries.now }
    requires there { AreIn pending.now.inputs (entries.now ++ slots.now) }
    requires some { 1 ≤ length pending.now.inputs }
    requires group { place_of (grid_in (entries.now ++ slots.now) (first_of pending.now.inputs)) pending.now.at < 2 ^ 32 }
    ensures { IfOk result (λ launch. launch ≡ launch_by shape.now (entries.now ++ slots.now) pending.now) }
{
    let inputs = pending.inputs.as_slice();
    let records = records_of(alloc, entries, slots, inputs)?;
    let first = find(entries, slots, inputs[0]);
    let grid = first.opening.grid;
    Ok(Launch {
        unit: pending.unit,
        records,
        group: linear_place(&grid, &pending.at),
        grid,
        last: shape.is_shared(pending.unit) & (first.opening.left == 1),
    })
}

fn records_of(
    alloc: Global,
    entries: &[Item],
    slots: &[Item],
    inputs: &[u64],
) -> Result<Records, AllocError>
    requires places { AreAtPlaces 0 entries.now }
    requires there { AreIn inputs.now (entries.now ++ slots.now) }
    ensures { IfOk result (λ records. records ≡ map (record_in (entries.now ++ slots.now)) inputs.now) }
{
    let mut records = Records::new(alloc);
    for number in inputs {
        let item = find(entries, slots, *number);
        records.push(Record {
            number: *number,
            words: item.words.copy(alloc)?,
        })?;
    }
    Ok(records)
}

/// Whether a launch is that of a launch out, with the words, the grid and the `last` of now. It takes no memory.
pub fn is_launch_of(
    shape: &Shape,
    entries: &[Item],
    slots: &[Item],
    pending: &Pending,
    launch: &Launch,
) -> bool
    requires places { AreAtPlaces 0 entries.now }
    requires there { AreIn pending.now.inputs (entries.now ++ slots.now) }
    requires some { 1 ≤ length pending.now.inputs }
    requires group { place_of (grid_in (entries.now ++ slots.now) (first_of pending.now.inputs)) pending.now.at < 2 ^ 32 }
    ensures { IsTrue result ↔ (launch.now ≡ launch_by shape.now (entries.now ++ slots.now) pending.now) }
{
    let inputs = pending.inputs.as_slice();
    let first = find(entries, slots, inputs[0]);
    let grid = first.opening.grid;
    let last = shape.is_shared(pending.unit) & (first.opening.left == 1);
    (launch.unit == pending.unit)
        & (launch.group == linear_place(&grid, &pending.at))
        & (launch.grid == grid)
        & (launch.last == last)
        & are_records(entries, slots, inputs, launch.records.as_slice())
}

fn are_records(entries: &[Item], slots: &[Item], inputs: &[u64], records: &[Record]) -> bool
    requires places { AreAtPlaces 0 entries.now }
    requires there { AreIn inputs.now (entries.now ++ slots.now) }
    ensures { IsTrue result ↔ (records.now ≡ map (record_in (entries.now ++ slots.now)) inputs.now) }
{
    if records.len() != inputs.len() {
        return false;
    }
    for place in 0..inputs.len() {
        let item = find(entries, slots, inputs[place]);
        if !is_record(&records[place], inputs[place], item) {
            return false;
        }
    }
    true
}

// Whether a record is that of a number, with the words of an item.
fn is_record(given: &Record, number: u64, item: &Item) -> bool
    ensures { IsTrue result ↔ ((given.now.number ≡ number) × (given.now.words ≡ item.now.words)) }
{
    (given.number == number) & (given.words.as_slice() == item.words.as_slice())
}
