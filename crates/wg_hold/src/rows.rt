ghost use Rattle.std.specs.Prelude.{◌≡◌, ℕ, ◌+◌, ◌<◌, ◌≤◌, ◌↔◌, ◌++◌, ◌∷◌, [], filter, length, true, IfOk, IsTrue};
ghost use Rattle.std.specs.Option.{option_copied};
ghost use Rattle.wg_words.specs.Each.{Each};
ghost use Rattle.wg_store.specs.declared.item.Item.{Item as ItemOf};
ghost use Rattle.wg_store.specs.Items.{CanOpen, all_counted, all_opened, has_left, item_in, waits_item, with_words};
ghost use Rattle.wg_hold.specs.Held.{count_of};
ghost use Rattle.wg_hold.specs.RowsOf.{Ends, EndsWith, IsSoundRows, RowsOf, gone_at, gone_size, unit_gone};

use crate::places::place_of;
use crate::row::{count_in, make_place, open_in, write_in};
use std::alloc::{AllocError, Global};
use std::marker::Model;
use wg_store::Item;
use wg_words::Words;

/// Records that are not consumed, in rising order of number.
///
/// One that is consumed stays in the row unseen, until there is no place behind the last; then all such are dropped at once. So
/// a call costs the same in the mean, besides the search by halves. After `new` no call takes memory.
#[derive(Drop)]
pub struct Rows {
    items: Vec<Item>,
    most: usize,
    units: u32,
    live: usize,
}

impl Model for Rows {
    ghost use Rattle.std.specs.Prelude.{filter, vec_capacity};
    ghost use Rattle.wg_store.specs.Items.{has_left};
    ghost use Rattle.wg_hold.specs.RowsOf.{AreRows, RowsOf};

    ghost Value = { RowsOf };

    ghost view = { λ r. record { items = filter has_left r.items.items; most = r.most; units = r.units } };

    ghost invariant = { λ r. AreRows r.items.items r.units r.live r.most (vec_capacity r.items) };
}

impl Rows {
    /// Room for so many records of units below a number.
    pub fn new(alloc: Global, most: usize, units: u32) -> Result<Rows, AllocError>
        ensures { IfOk result (λ rows. rows ≡ record { items = []; most = most; units = units }) }
    {
        let capacity = most.checked_mul(2).ok_or(AllocError)?;
        Ok(Rows {
            items: Vec::with_capacity(alloc, capacity)?,
            most,
            units,
            live: 0,
        })
    }

    /// What holds of every row: numbers rise, and each record has a group that has not settled.
    pub fn keeps_laws(&self)
        ensures { IsSoundRows self.now }
    {
        let _ = &self.live;
    }

    pub fn is_empty(&self) -> bool
        ensures { IsTrue result ↔ (self.now.items ≡ []) }
    {
        self.live == 0
    }

    /// The row with those that are consumed among them; they do not wait.
    pub fn scan(&self) -> &[Item]
        ensures live { filter has_left result.now ≡ self.now.items }
        ensures ends { Each Ends result.now }
        ensures units { Each (λ (x : ItemOf). x.unit < self.now.units) result.now }
    {
        self.items.as_slice()
    }

    /// The record with a number.
    pub fn get(&self, number: u64) -> Option<&Item>
        ensures { option_copied result ≡ item_in number self.now.items }
    {
        let Some(place) = place_of(&self.items, number) else {
            return None;
        };
        let item = &self.items[place];
        if !item.has_left() {
            return None;
        }
        Some(item)
    }

    /// Puts a record behind the last.
    pub fn push(&mut self, item: Item)
        requires few { length self.old.items < self.old.most }
        requires above { Each (λ (x : ItemOf). x.number < item.number) self.old.items }
        requires left { has_left item ≡ true }
        requires unit { item.unit < self.old.units }
        ensures { self.new ≡ record self.old { items = self.old.items ++ item ∷ [] } }
    {
        make_place(&mut self.items, item.number);
        self.items.push_reserved(item);
        self.live += 1;
    }

    /// Opens one more group of the record with a number, if there is one.
    pub fn open(&mut self, number: u64)
        requires { Each (CanOpen (number ∷ [])) self.old.items }
        ensures { self.new ≡ record self.old { items = all_opened (number ∷ []) self.old.items } }
    {
        open_in(&mut self.items, number);
    }

    /// Counts one more group of the record with a number as settled, if there is one. It goes when none is left, and its unit is
    /// given then.
    pub fn count(&mut self, number: u64) -> Option<u32>
        requires { Each (EndsWith number) self.old.items }
        ensures items { self.new ≡ record self.old { items = filter has_left (all_counted (number ∷ []) self.old.items) } }
        ensures unit { result ≡ unit_gone number self.old.items }
        ensures fewer { (v : ℕ) → count_of v self.new.items + gone_at v result ≡ count_of v self.old.items }
    {
        let unit = count_in(&mut self.items, number);
        self.live = less(self.live, unit);
        unit
    }

    /// Gives the record with a number other words.
    pub fn write(&mut self, number: u64, words: Words)
        ensures { self.new ≡ record self.old { items = with_words number words self.old.items } }
    {
        write_in(&mut self.items, number, words);
    }
}

// One less where a record went.
fn less(live: usize, unit: Option<u32>) -> usize
    requires { gone_size unit ≤ live }
    ensures { result + gone_size unit ≡ live }
{
    match unit {
        Some(_) => live - 1,
        None => live,
    }
}
