ghost use Rattle.std.specs.Prelude.{◌≡◌, ◌≢◌, ◌<◌, ◌++◌, length, slice_get, IfNone, IfSome, IsSome, None, Some};
ghost use Rattle.wg_store.specs.Items.{AreAtPlaces, item_in};

use crate::item::Item;

/// The place of the first of the records with a number.
pub fn place_in(items: &[Item], number: u64) -> Option<usize>
    ensures within { IfSome result (λ place. place < length items.now) }
    ensures found { IfSome result (λ place. slice_get items.now place ≡ item_in number items.now) }
    ensures none { IfNone result (item_in number items.now ≡ None) }
{
    for (place, item) in items.iter().enumerate() {
        if item.number == number {
            return Some(place);
        }
    }
    None
}

/// The record of a number: that of an entry stands at the place of its number, the others are looked for.
pub fn find<'a>(entries: &'a [Item], slots: &'a [Item], number: u64) -> &'a Item
    requires places { AreAtPlaces 0 entries.now }
    requires there { item_in number (entries.now ++ slots.now) ≢ None }
    ensures { item_in number (entries.now ++ slots.now) ≡ Some result.now }
{
    if number < entries.len() as u64 {
        return &entries[number as usize];
    }
    let Some(place) = place_in(slots, number) else {
        unreachable!();
    };
    &slots[place]
}
