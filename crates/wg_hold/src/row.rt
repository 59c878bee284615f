ghost use Rattle.std.specs.Prelude.{◌≡◌, ◌⊎◌, ◌+◌, ◌^◌, ◌<◌, ◌∷◌, [], filter, length, IsTrue, Some, true, vec_capacity, vec_len};
ghost use Rattle.wg_words.specs.Each.{Each};
ghost use Rattle.wg_store.specs.declared.item.Item.{Item as ItemOf};
ghost use Rattle.wg_store.specs.Items.{CanOpen, has_left, with_counted, with_opened};
ghost use Rattle.wg_hold.specs.RowsOf.{AreRising, changed, changed_words, if_left, unit_gone, unit_of_last, worded};

use crate::places::place_of;
use wg_store::Item;
use wg_words::Words;

/// Opens one more group of the record with a number, where it is not gone.
pub fn open_in(items: &mut Vec<Item>, number: u64)
    requires rises { AreRising 0 items.old.items }
    requires can { Each (CanOpen (number ∷ [])) (filter has_left items.old.items) }
    ensures items { items.new.items ≡ changed number with_opened items.old.items }
    ensures capacity { vec_capacity items.new ≡ vec_capacity items.old }
{
    open_one(items.as_mut_slice(), number);
}

fn open_one(items: &mut [Item], number: u64)
    requires rises { AreRising 0 items.old }
    requires can { Each (CanOpen (number ∷ [])) (filter has_left items.old) }
    ensures { items.new ≡ changed number with_opened items.old }
{
    let Some(place) = place_of(items, number) else {
        return;
    };
    open_left(&mut items[place]);
}

fn open_left(item: &mut Item)
    requires { has_left item.old ≡ true → item.old.opening.opened + 1 < 2 ^ 32 }
    ensures { item.new ≡ if_left with_opened item.old }
{
    if !item.has_left() {
        return;
    }
    item.opening.opened += 1;
}

/// Counts one more group of the record with a number as settled, and gives its unit where it was the last.
pub fn count_in(items: &mut Vec<Item>, number: u64) -> Option<u32>
    requires { AreRising 0 items.old.items }
    ensures items { items.new.items ≡ changed number with_counted items.old.items }
    ensures unit { result ≡ unit_gone number (filter has_left items.old.items) }
    ensures capacity { vec_capacity items.new ≡ vec_capacity items.old }
{
    count_one(items.as_mut_slice(), number)
}

fn count_one(items: &mut [Item], number: u64) -> Option<u32>
    requires { AreRising 0 items.old }
    ensures items { items.new ≡ changed number with_counted items.old }
    ensures unit { result ≡ unit_gone number (filter has_left items.old) }
{
    let Some(place) = place_of(items, number) else {
        return None;
    };
    count_left(&mut items[place])
}

fn count_left(item: &mut Item) -> Option<u32>
    ensures item { item.new ≡ if_left with_counted item.old }
    ensures unit { result ≡ unit_of_last (Some item.old) }
{
    if !item.has_left() {
        return None;
    }
    item.opening.left -= 1;
    if item.opening.left > 0 {
        return None;
    }
    Some(item.unit)
}

/// Gives the record with a number other words, where it is not gone.
pub fn write_in(items: &mut Vec<Item>, number: u64, words: Words)
    requires { AreRising 0 items.old.items }
    ensures items { items.new.items ≡ changed_words number words items.old.items }
    ensures capacity { vec_capacity items.new ≡ vec_capacity items.old }
{
    write_one(items.as_mut_slice(), number, words);
}

fn write_one(items: &mut [Item], number: u64, words: Words)
    requires { AreRising 0 items.old }
    ensures { items.new ≡ changed_words number words items.old }
{
    let Some(place) = place_of(items, number) else {
        return;
    };
    write_left(&mut items[place], words);
}

fn write_left(item: &mut Item, words: Words)
    ensures { item.new ≡ if_left (worded words) item.old }
{
    if !item.has_left() {
        return;
    }
    item.words = words;
}

/// Makes a place behind the last record for one with a number above those that are not gone.
pub fn make_place(items: &mut Vec<Item>, number: u64)
    requires rises { AreRising 0 items.old.items }
    requires above { Each (λ (x : ItemOf). x.number < number) (filter has_left items.old.items) }
    requires few { length (filter has_left items.old.items) < vec_capacity items.old }
    ensures items { (items.new.items ≡ items.old.items) ⊎ (items.new.items ≡ filter has_left items.old.items) }
    ensures above { Each (λ (x : ItemOf). x.number < number) items.new.items }
    ensures place { vec_len items.new < vec_capacity items.new }
    ensures capacity { vec_capacity items.new ≡ vec_capacity items.old }
{
    if items.len() < items.capacity() && ends_below(items, number) {
        return;
    }
    items.retain(|item| item.has_left());
}

// Whether each record is below a number.
fn ends_below(items: &[Item], number: u64) -> bool
    requires { AreRising 0 items.now }
    ensures { IsTrue result → Each (λ (x : ItemOf). x.number < number) items.now }
{
    let count = items.len();
    if count == 0 {
        return true;
    }
    items[count - 1].number < number
}
