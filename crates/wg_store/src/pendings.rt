ghost use Rattle.std.specs.Prelude.{◌≡◌, ◌≢◌, ◌∷◌, [], IfOk, Some, filter, slice_get, true};
ghost use Rattle.std.specs.Option.{option_copied};
ghost use Rattle.wg_store.specs.Items.{first_at, fits_next, fits_unit, pending_of, waits_item};

use crate::fronts::{first_entries, first_waiting, waits_at};
use crate::item::Item;
use std::alloc::{AllocError, Global};
use wg_keep::group_at;
use wg_machine::Shape;
use wg_standing::Pending;

/// The launch of a unit that takes from the front of its records that wait.
pub fn slots_pending(
    alloc: Global,
    shape: &Shape,
    slots: &[Item],
    unit: u32,
    ticket: u64,
) -> Result<Pending, AllocError>
    requires { fits_unit unit slots.now ≢ [] }
    ensures { IfOk result (λ pending. pending ≡ pending_of ticket shape.now unit (fits_unit unit slots.now)) }
{
    let most = shape.kind(unit).most_inputs();
    let at = front_at(slots, unit);
    let inputs = first_waiting(alloc, slots, unit, most as usize)?;
    Ok(Pending {
        ticket,
        unit,
        at,
        inputs,
    })
}

// The next group of the first record of a unit that waits.
fn front_at(items: &[Item], unit: u32) -> [u32; 3]
    requires { fits_unit unit items.now ≢ [] }
    ensures { result ≡ first_at (fits_unit unit items.now) }
{
    for item in items {
        if waits_at(item, unit) {
            return next_of(item);
        }
    }
    unreachable!()
}

// The next group of a record that waits.
fn next_of(item: &Item) -> [u32; 3]
    requires { waits_item item.now ≡ true }
    ensures { result ≡ first_at (item.now ∷ []) }
{
    group_at(&item.opening.grid, item.opening.opened)
}

/// The first entry that waits.
pub fn first_item(entries: &[Item]) -> Option<&Item>
    ensures { option_copied result ≡ slice_get (filter waits_item entries.now) 0 }
{
    for item in entries {
        if item.waits() {
            return Some(item);
        }
    }
    None
}

/// The launch that takes from the front of the entries that wait, of which this is the first.
pub fn entries_pending(
    alloc: Global,
    shape: &Shape,
    entries: &[Item],
    first: &Item,
    ticket: u64,
) -> Result<Pending, AllocError>
    requires { slice_get (filter waits_item entries.now) 0 ≡ Some first.now }
    ensures { IfOk result (λ pending. pending ≡ pending_of ticket shape.now first.now.unit (fits_next first.now.unit entries.now)) }
{
    let unit = first.unit;
    let most = shape.kind(unit).most_inputs();
    let at = next_of(first);
    let inputs = first_entries(alloc, entries, unit, most as usize)?;
    Ok(Pending {
        ticket,
        unit,
        at,
        inputs,
    })
}
