ghost use Rattle.std.specs.Prelude.{◌≡◌, ◌+◌, ◌<◌, ◌≤◌, ◌^◌, ◌∷◌, [], length, Some};
ghost use Rattle.wg_words.specs.Each.{Each};
ghost use Rattle.wg_store.specs.Items.{AreAtPlaces, CanCount, CanOpen, all_counted, all_opened, item_in, with_counted, with_opened, with_words};
ghost use Rattle.wg_entries.specs.Apart.{AreApart};

use wg_store::Item;
use wg_words::Words;

fn open_all(items: &mut [Item], numbers: &[u64])
    requires places { AreAtPlaces 0 items.old }
    requires apart { AreApart numbers.now }
    requires can { Each (CanOpen numbers.now) items.old }
    ensures { items.new ≡ all_opened numbers.now items.old }
{
    for number in numbers {
        open_one(items, *number);
    }
}

// A number behind the end is that of no entry.
fn open_one(items: &mut [Item], number: u64)
    requires places { AreAtPlaces 0 items.old }
    requires can { Each (CanOpen (number ∷ [])) items.old }
    ensures { items.new ≡ all_opened (number ∷ []) items.old }
{
    let place = number as usize;
    if place >= items.len() {
        return;
    }
    open_item(&mut items[place]);
}

fn open_item(item: &mut Item)
    requires { item.old.opening.opened + 1 < 2 ^ 32 }
    ensures { item.new ≡ with_opened item.old }
{
    item.opening.opened += 1;
}

fn count_all(items: &mut [Item], numbers: &[u64])
    requires places { AreAtPlaces 0 items.old }
    requires apart { AreApart numbers.now }
    requires can { Each (CanCount numbers.now) items.old }
    ensures { items.new ≡ all_counted numbers.now items.old }
{
    for number in numbers {
        count_one(items, *number);
    }
}

// A number behind the end is that of no entry.
fn count_one(items: &mut [Item], number: u64)
    requires places { AreAtPlaces 0 items.old }
    requires can { Each (CanCount (number ∷ [])) items.old }
    ensures { items.new ≡ all_counted (number ∷ []) items.old }
{
    let place = number as usize;
    if place >= items.len() {
        return;
    }
    count_item(&mut items[place]);
}

fn count_item(item: &mut Item)
    requires { 1 ≤ item.old.opening.left }
    ensures { item.new ≡ with_counted item.old }
{
    item.opening.left -= 1;
}

/// The entry of a number.
pub fn entry_at(items: &[Item], number: u64) -> &Item
    requires places { AreAtPlaces 0 items.now }
    requires there { number < length items.now }
    ensures { item_in number items.now ≡ Some result.now }
{
    &items[number as usize]
}

fn set_words(items: &mut [Item], number: u64, words: Words)
    requires places { AreAtPlaces 0 items.old }
    requires there { number < length items.old }
    ensures { items.new ≡ with_words number words items.old }
{
    items[number as usize].words = words;
}

/// Opens one more group of each of the entries that have these numbers.
pub fn open_in(items: &mut Vec<Item>, numbers: &[u64])
    requires places { AreAtPlaces 0 items.old.items }
    requires apart { AreApart numbers.now }
    requires can { Each (CanOpen numbers.now) items.old.items }
    ensures { items.new.items ≡ all_opened numbers.now items.old.items }
{
    open_all(items.as_mut_slice(), numbers);
}

/// Counts one more group of each of the entries that have these numbers as settled.
pub fn count_in(items: &mut Vec<Item>, numbers: &[u64])
    requires places { AreAtPlaces 0 items.old.items }
    requires apart { AreApart numbers.now }
    requires can { Each (CanCount numbers.now) items.old.items }
    ensures { items.new.items ≡ all_counted numbers.now items.old.items }
{
    count_all(items.as_mut_slice(), numbers);
}

/// Gives the entry of a number other words.
pub fn rewrite_in(items: &mut Vec<Item>, number: u64, words: Words)
    requires places { AreAtPlaces 0 items.old.items }
    requires there { number < length items.old.items }
    ensures { items.new.items ≡ with_words number words items.old.items }
{
    set_words(items.as_mut_slice(), number, words);
}
