ghost use Rattle.std.specs.Prelude.{◌≡◌, ◌+◌, ◌<◌, ◌≤◌, ◌^◌, filter, if◌then◌else◌, Some, vec_capacity};
ghost use Rattle.wg_words.specs.Each.{Each};
ghost use Rattle.wg_machine.specs.Step.{has_number};
ghost use Rattle.wg_store.specs.Items.{CanCount, CanOpen, IsOnce, all_counted, all_opened, has_left, with_counted, with_opened, with_words};

use crate::finding::place_in;
use crate::item::Item;
use wg_words::Words;

/// Opens one more group of each of the records that have these numbers.
pub fn open_all(items: &mut [Item], numbers: &[u64])
    requires { Each (CanOpen numbers.now) items.old }
    ensures { items.new ≡ all_opened numbers.now items.old }
{
    for place in 0..items.len() {
        open_one(&mut items[place], numbers);
    }
}

/// The same in a `Vec`.
pub fn open_in(items: &mut Vec<Item>, numbers: &[u64])
    requires { Each (CanOpen numbers.now) items.old.items }
    ensures items { items.new.items ≡ all_opened numbers.now items.old.items }
    ensures capacity { vec_capacity items.new ≡ vec_capacity items.old }
{
    open_all(items.as_mut_slice(), numbers);
}

fn open_one(item: &mut Item, numbers: &[u64])
    requires { CanOpen numbers.now item.old }
    ensures { item.new ≡ (if has_number numbers.now item.old.number then with_opened item.old else item.old) }
{
    if !is_among(numbers, item.number) {
        return;
    }
    item.opening.opened += 1;
}

/// Counts one more group of each of the records that have these numbers as settled.
pub fn count_all(items: &mut [Item], numbers: &[u64])
    requires { Each (CanCount numbers.now) items.old }
    ensures { items.new ≡ all_counted numbers.now items.old }
{
    for place in 0..items.len() {
        count_one(&mut items[place], numbers);
    }
}

fn count_one(item: &mut Item, numbers: &[u64])
    requires { CanCount numbers.now item.old }
    ensures { item.new ≡ (if has_number numbers.now item.old.number then with_counted item.old else item.old) }
{
    if !is_among(numbers, item.number) {
        return;
    }
    item.opening.left -= 1;
}

/// Gives the record of a number other words.
pub fn write_words(items: &mut [Item], number: u64, words: Words)
    requires once { IsOnce number items.old }
    ensures { items.new ≡ with_words number words items.old }
{
    let Some(place) = place_in(items, number) else {
        return;
    };
    items[place].words = words;
}

/// Takes out the records of which each group has settled.
pub fn drop_settled(items: &mut Vec<Item>)
    ensures { items.new.items ≡ filter has_left items.old.items }
{
    items.retain(|item| item.has_left());
}

fn is_among(numbers: &[u64], number: u64) -> bool
    ensures { result ≡ has_number numbers.now number }
{
    numbers.iter().any(|other| *other == number)
}
