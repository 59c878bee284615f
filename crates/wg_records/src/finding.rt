ghost use Rattle.std.specs.Prelude.{◌≡◌, ◌&&◌, List, IfOk, length, map};
ghost use Rattle.std.specs.List.{list_all};
ghost use Rattle.wg_machine.specs.declared.launch.Live.{Live as Waiting};
ghost use Rattle.wg_machine.specs.Fitting.{BagFits};
ghost use Rattle.wg_machine.specs.GoodShape.{IsGoodShape};
ghost use Rattle.wg_machine.specs.Units.{shared_at};
ghost use Rattle.wg_records.specs.Bags.{slot_at, Keeps};
ghost use Rattle.wg_records.specs.Named.{grid_in, has_one_left, is_ready_at, record_at, FoundIs, NumbersRise};

use crate::live::LiveRecords;
use std::alloc::{AllocError, Global};
use wg_machine::{
    Entry, Launch, Record, Records, Shape, allowed_is_launch_in, launch_in_is_allowed,
    linear_place, live_groups_lie_in_grids,
};
use wg_words::{TryCopy, Words};

fn is_ready(records: &LiveRecords, number: u64, unit: u32, at: &[u32; 3]) -> bool
    ensures { result ≡ is_ready_at unit at.now (slot_at records.now number) }
{
    match records.slots.get(&number) {
        Some(slot) => slot.is_ready(unit, at),
        None => false,
    }
}

fn is_at_last_group(records: &LiveRecords, number: u64) -> bool
    ensures { result ≡ has_one_left (slot_at records.now number) }
{
    match records.slots.get(&number) {
        Some(slot) => slot.left == 1,
        None => false,
    }
}

fn grid_at(records: &LiveRecords, number: u64) -> [u32; 3]
    ensures { result ≡ grid_in (slot_at records.now number) }
{
    match records.slots.get(&number) {
        Some(slot) => slot.grid,
        None => [1, 1, 1],
    }
}

fn record_in(alloc: Global, records: &LiveRecords, number: u64) -> Result<Record, AllocError>
    ensures { IfOk result (λ r. r ≡ record_at records.now number) }
{
    let words = match records.slots.get(&number) {
        Some(slot) => slot.words.copy(alloc)?,
        None => Words::new(alloc),
    };
    Ok(Record { number, words })
}

fn records_in(alloc: Global, records: &LiveRecords, numbers: &[u64]) -> Result<Records, AllocError>
    ensures { IfOk result (λ rs. rs ≡ map (record_at records.now) numbers.now) }
{
    let mut found = Records::new(alloc);
    for number in numbers {
        found.push(record_in(alloc, records, *number)?)?;
    }
    Ok(found)
}

fn are_ready(records: &LiveRecords, numbers: &[u64], unit: u32, at: &[u32; 3]) -> bool
    ensures { result ≡ list_all (λ n. is_ready_at unit at.now (slot_at records.now n)) numbers.now }
{
    numbers
        .iter()
        .all(|number| is_ready(records, *number, unit, at))
}

fn are_at_last_group(records: &LiveRecords, numbers: &[u64]) -> bool
    ensures { result ≡ list_all (λ n. has_one_left (slot_at records.now n)) numbers.now }
{
    numbers
        .iter()
        .all(|number| is_at_last_group(records, *number))
}

/// Whether the unit is shared, and the records have no group left but one.
fn is_last_launch(records: &LiveRecords, shape: &Shape, unit: u32, numbers: &[u64]) -> bool
    ensures { result ≡ (shared_at shape.now unit && list_all (λ n. has_one_left (slot_at records.now n)) numbers.now) }
{
    shape.is_shared(unit) && are_at_last_group(records, numbers)
}

fn has_three(at: &[u32; 3])
    ensures { length at.now ≡ 3 }
{}

impl LiveRecords {
    /// The launch that an entry names, if the bag allows it: of no other does the machine make a step.
    pub fn find(
        &self,
        alloc: Global,
        shape: &Shape,
        entry: &Entry,
    ) -> Result<Option<Launch>, AllocError>
        requires good { IsGoodShape shape.now }
        requires rise { NumbersRise 0 entry.now.inputs }
        ensures { IfOk result (λ found. (bag : List Waiting) → Keeps shape.now self.now bag → BagFits shape.now bag → FoundIs shape.now bag entry.now found) }
    {
        allowed_is_launch_in();
        launch_in_is_allowed();
        live_groups_lie_in_grids();
        has_three(&entry.at);
        let numbers = entry.inputs.as_slice();
        let Some(first) = numbers.first() else {
            return Ok(None);
        };
        if numbers.len() > shape.kind(entry.unit).most_inputs() as usize {
            return Ok(None);
        }
        if !are_ready(self, numbers, entry.unit, &entry.at) {
            return Ok(None);
        }
        let records = records_in(alloc, self, numbers)?;
        let grid = grid_at(self, *first);
        let group = linear_place(&grid, &entry.at);
        let last = is_last_launch(self, shape, entry.unit, numbers);
        Ok(Some(Launch {
            unit: entry.unit,
            records,
            group,
            grid,
            last,
        }))
    }
}
