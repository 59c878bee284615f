ghost use Rattle.std.specs.Prelude.{◌≡◌, ◌<◌, ◌≤◌, IfOk, length};
ghost use Rattle.wg_machine.specs.GoodShape.{IsGoodShape};
ghost use Rattle.wg_store.specs.Items.{entry_items};
ghost use Rattle.wg_entries.specs.Front.{IsFront};
ghost use Rattle.wg_entries.specs.Stands.{IsPast, WaitsAt};

use std::alloc::{AllocError, Global};
use wg_machine::{Entries, Shape};
use wg_standing::Pending;
use wg_store::{Item, entries_pending};

/// The entries of a script, of which no group is opened.
pub fn items_of(alloc: Global, shape: &Shape, entries: Entries) -> Result<Vec<Item>, AllocError>
    requires { IsGoodShape shape.now }
    ensures { IfOk result (λ items. items.items ≡ entry_items shape.now 0 entries) }
{
    let mut items = Vec::with_capacity(alloc, entries.len())?;
    for sent in entries.into_vec() {
        let number = items.len() as u64;
        items.push(Item::new(shape, number, sent))?;
    }
    Ok(items)
}

/// The place of the first item that waits, from one on before which none does.
pub fn next_waiting(items: &[Item], from: usize) -> usize
    requires within { from ≤ length items.now }
    requires past { IsPast items.now from }
    ensures within { result ≤ length items.now }
    ensures past { IsPast items.now result }
    ensures waits { WaitsAt items.now result }
{
    for place in from..items.len() {
        if items[place].waits() {
            return place;
        }
    }
    items.len()
}

/// The launch that takes from the front of the items that wait, of which the first is at the place.
pub fn front_at(
    alloc: Global,
    shape: &Shape,
    items: &[Item],
    place: usize,
    ticket: u64,
) -> Result<Pending, AllocError>
    requires there { place < length items.now }
    requires past { IsPast items.now place }
    requires waits { WaitsAt items.now place }
    ensures front { IfOk result (IsFront shape.now items.now) }
    ensures ticket { IfOk result (λ pending. pending.ticket ≡ ticket) }
{
    let first = &items[place];
    let pending = entries_pending(alloc, shape, &items[place..], first, ticket)?;
    Ok(pending)
}
