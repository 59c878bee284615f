ghost use Rattle.std.specs.Prelude.{◌≡◌, ◌==◌, ◌&&◌, take, IfOk};
ghost use Rattle.wg_store.specs.Items.{fits_next, fits_unit, numbers_in, waits_item};

use crate::item::Item;
use std::alloc::{AllocError, Global};
use wg_words::Numbers;

/// The numbers of the first records of a unit that wait, at most so many.
pub fn first_waiting(
    alloc: Global,
    items: &[Item],
    unit: u32,
    most: usize,
) -> Result<Numbers, AllocError>
    ensures { IfOk result (λ numbers. numbers ≡ numbers_in (take most (fits_unit unit items.now))) }
{
    let mut numbers = Numbers::new(alloc);
    for item in items {
        if numbers.len() == most {
            return Ok(numbers);
        }
        if !waits_at(item, unit) {
            continue;
        }
        numbers.push(item.number)?;
    }
    Ok(numbers)
}

/// The numbers of the first records that wait, at most so many and as long as they are of a unit.
pub fn first_entries(
    alloc: Global,
    items: &[Item],
    unit: u32,
    most: usize,
) -> Result<Numbers, AllocError>
    ensures { IfOk result (λ numbers. numbers ≡ numbers_in (take most (fits_next unit items.now))) }
{
    let mut numbers = Numbers::new(alloc);
    for item in items {
        if numbers.len() == most {
            return Ok(numbers);
        }
        if !item.waits() {
            continue;
        }
        if item.unit != unit {
            return Ok(numbers);
        }
        numbers.push(item.number)?;
    }
    Ok(numbers)
}

/// Whether a record is of a unit and waits.
pub fn waits_at(item: &Item, unit: u32) -> bool
    ensures { result ≡ ((item.now.unit == unit) && waits_item item.now) }
{
    (item.unit == unit) & item.waits()
}
