ghost use Rattle.std.specs.Prelude.{◌≡◌, ◌<◌, ◌≤◌, IfOk, length, take};
ghost use Rattle.wg_slots.specs.SlotsOf.{slots_at, waiting_of};

use std::alloc::{AllocError, Global};
use wg_machine::{Record, Records};
use wg_slots::Slots;
use wg_words::Words;

/// Copies of the first records that wait at a unit, so many.
pub fn front_records(
    alloc: Global,
    slots: &Slots,
    unit: u32,
    count: u32,
) -> Result<Records, AllocError>
    requires unit { unit < length slots.now }
    requires there { count ≤ length (waiting_of (slots_at slots.now unit)) }
    ensures { IfOk result (λ records. records ≡ take count (waiting_of (slots_at slots.now unit))) }
{
    let mut records = Records::new(alloc);
    for place in 0..count {
        let (_, seen) = slots.front(unit, place);
        records.push(Record {
            number: seen.number,
            words: Words::from_slice(alloc, seen.words)?,
        })?;
    }
    Ok(records)
}
