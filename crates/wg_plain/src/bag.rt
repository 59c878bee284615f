ghost use Rattle.std.specs.Prelude.{◌≡◌, ◌↔◌, ◌==◌, IsTrue, IfOk, length, map};
ghost use Rattle.wg_machine.specs.Fitting.{BagFits};
ghost use Rattle.wg_machine.specs.GoodShape.{IsGoodShape};
ghost use Rattle.wg_machine.specs.Grids.{has_group};
ghost use Rattle.wg_machine.specs.Step.{has_number, first_grid, is_last, numbers_of, record_of, taken};
ghost use Rattle.wg_plain.specs.Named.{all_taken, is_ready, FoundIs};

use std::alloc::{AllocError, Global};
use wg_machine::{
    Entry, Launch, Live, Record, Records, Shape, allowed_is_launch_in, is_same_group,
    launch_in_is_allowed, linear_place, live_groups_lie_in_grids,
};
use wg_words::TryCopy;

/// Whether a number is among others.
pub fn is_listed(numbers: &[u64], number: u64) -> bool
    ensures { result ≡ has_number numbers.now number }
{
    numbers.iter().any(|n| *n == number)
}

fn stands_in(groups: &[[u32; 3]], at: &[u32; 3]) -> bool
    ensures { result ≡ has_group groups.now at.now }
{
    groups.iter().any(|group| is_same_group(group, at))
}

fn all_ready(bag: &[Live], numbers: &[u64], unit: u32, at: &[u32; 3]) -> bool
    ensures { result ≡ all_taken (is_ready unit at.now) numbers.now bag.now }
{
    bag.iter().all(|live| {
        !is_listed(numbers, live.number)
            || (live.unit == unit && stands_in(live.groups.as_slice(), at))
    })
}

fn all_have_one_left(bag: &[Live], numbers: &[u64]) -> bool
    ensures { result ≡ all_taken (λ r. length r.groups == 1) numbers.now bag.now }
{
    bag.iter().all(|live| !is_listed(numbers, live.number) || live.groups.len() == 1)
}

fn is_last_launch(shape: &Shape, unit: u32, bag: &[Live], numbers: &[u64]) -> bool
    ensures { result ≡ is_last shape.now unit (taken numbers.now bag.now) }
{
    shape.is_shared(unit) && all_have_one_left(bag, numbers)
}

fn record_in(alloc: Global, live: &Live) -> Result<Record, AllocError>
    ensures { IfOk result (λ record'. record' ≡ record_of live.now) }
{
    Ok(Record {
        number: live.number,
        words: live.words.copy(alloc)?,
    })
}

fn records_taken(alloc: Global, bag: &[Live], numbers: &[u64]) -> Result<Records, AllocError>
    ensures { IfOk result (λ records. records ≡ map record_of (taken numbers.now bag.now)) }
{
    let mut records = Records::new(alloc);
    for live in bag {
        if is_listed(numbers, live.number) {
            records.push(record_in(alloc, live)?)?;
        }
    }
    Ok(records)
}

fn are_numbers(records: &[Record], numbers: &[u64]) -> bool
    ensures { IsTrue result ↔ (numbers_of records.now ≡ numbers.now) }
{
    if records.len() != numbers.len() {
        return false;
    }
    for (i, number) in numbers.iter().enumerate() {
        if records[i].number != *number {
            return false;
        }
    }
    true
}

fn grid_of_first(bag: &[Live], numbers: &[u64]) -> [u32; 3]
    ensures { result ≡ first_grid (taken numbers.now bag.now) }
{
    for live in bag {
        if is_listed(numbers, live.number) {
            return live.grid;
        }
    }
    [1, 1, 1]
}

/// The launch that an entry names, if the bag allows it.
pub fn find(
    alloc: Global,
    shape: &Shape,
    bag: &[Live],
    entry: &Entry,
) -> Result<Option<Launch>, AllocError>
    requires good { IsGoodShape shape.now }
    requires fitting { BagFits shape.now bag.now }
    ensures { IfOk result (FoundIs shape.now bag.now entry.now) }
{
    allowed_is_launch_in();
    launch_in_is_allowed();
    live_groups_lie_in_grids();
    let numbers = entry.inputs.as_slice();
    if numbers.is_empty() {
        return Ok(None);
    }
    if numbers.len() > shape.kind(entry.unit).most_inputs() as usize {
        return Ok(None);
    }
    if !all_ready(bag, numbers, entry.unit, &entry.at) {
        return Ok(None);
    }
    let records = records_taken(alloc, bag, numbers)?;
    if !are_numbers(records.as_slice(), numbers) {
        return Ok(None);
    }
    let grid = grid_of_first(bag, numbers);
    let group = linear_place(&grid, &entry.at);
    let last = is_last_launch(shape, entry.unit, bag, numbers);
    Ok(Some(Launch {
        unit: entry.unit,
        records,
        group,
        grid,
        last,
    }))
}
