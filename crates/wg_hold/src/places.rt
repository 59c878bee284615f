ghost use Rattle.std.specs.Prelude.{◌≡◌, ◌<◌, length, slice_get, IfNone, IfSome, None};
ghost use Rattle.wg_store.specs.Items.{item_in};
ghost use Rattle.wg_hold.specs.RowsOf.{AreRising};

use wg_store::Item;

/// The place of the record with a number, by halves.
pub fn place_of(items: &[Item], number: u64) -> Option<usize>
    requires { AreRising 0 items.now }
    ensures within { IfSome result (λ place. place < length items.now) }
    ensures found { IfSome result (λ place. slice_get items.now place ≡ item_in number items.now) }
    ensures none { IfNone result (item_in number items.now ≡ None) }
{
    match items.binary_search_by_key(&number, |item| item.number) {
        Ok(place) => Some(place),
        Err(_) => None,
    }
}
