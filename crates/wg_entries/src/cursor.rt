ghost use Rattle.std.specs.Prelude.{◌≡◌, ◌≢◌, ℕ, ◌<◌, ◌≤◌, ◌==◌, count_by, filter, length, slice_get, IfOk, None, Some};
ghost use Rattle.std.specs.Option.{option_map};
ghost use Rattle.wg_words.specs.Each.{Each};
ghost use Rattle.wg_machine.specs.declared.shape.Shape.{Shape as Graph};
ghost use Rattle.wg_machine.specs.GoodShape.{IsGoodShape};
ghost use Rattle.wg_machine.specs.LaunchMeaning.{Arrives};
ghost use Rattle.wg_store.specs.declared.item.Item.{Item as ItemOf};
ghost use Rattle.wg_store.specs.Items.{CanCount, all_counted, all_opened, entry_items, item_in, waits_item, with_words, words_in};
ghost use Rattle.wg_entries.specs.Front.{IsFront};

use crate::changes::{count_in, entry_at, open_in, rewrite_in};
use crate::waiting::{front_at, items_of, next_waiting};
use std::alloc::{AllocError, Global};
use std::marker::Model;
use wg_keep::Opening;
use wg_machine::{Entries, Shape};
use wg_standing::Pending;
use wg_store::Item;
use wg_words::{Word, Words};

/// The entries of a script, at the places of their numbers.
#[derive(Drop)]
pub struct EntryCursor {
    items: Vec<Item>,
    place: usize,
}

impl Model for EntryCursor {
    ghost use Rattle.std.specs.Prelude.{List};
    ghost use Rattle.wg_store.specs.declared.item.Item.{Item};
    ghost use Rattle.wg_entries.specs.Stands.{Stands};

    ghost Value = { List Item };

    ghost view = { λ e. e.items.items };

    ghost invariant = { λ e. Stands e.items.items e.place };
}

impl EntryCursor {
    /// The entries of a script, of which no group is opened. No later call takes memory but `front`.
    pub fn new(alloc: Global, shape: &Shape, entries: Entries) -> Result<EntryCursor, AllocError>
        requires good { IsGoodShape shape.now }
        requires arrive { Each (Arrives shape.now) entries }
        ensures { IfOk result (λ cursor. cursor ≡ entry_items shape.now 0 entries) }
    {
        let items = items_of(alloc, shape, entries)?;
        let place = next_waiting(items.as_slice(), 0);
        Ok(EntryCursor { items, place })
    }

    pub fn len(&self) -> u64
        ensures { result ≡ length self.now }
    {
        self.items.len() as u64
    }

    /// The unit of the first entry that waits.
    pub fn first_unit(&self) -> Option<u32>
        ensures { result ≡ option_map (λ (x : ItemOf). x.unit) (slice_get (filter waits_item self.now) 0) }
    {
        match self.items.get(self.place) {
            Some(item) => Some(item.unit),
            None => None,
        }
    }

    /// The launch that takes from the front of the entries that wait.
    pub fn front(&self, alloc: Global, shape: &Shape, ticket: u64) -> Result<Pending, AllocError>
        requires good { IsGoodShape shape.now }
        requires some { slice_get (filter waits_item self.now) 0 ≢ None }
        ensures front { IfOk result (IsFront shape.now self.now) }
        ensures ticket { IfOk result (λ pending. pending.ticket ≡ ticket) }
    {
        front_at(alloc, shape, self.items.as_slice(), self.place, ticket)
    }

    /// The words of the entry of a number.
    pub fn words(&self, number: u64) -> &[Word]
        requires { number < length self.now }
        ensures { result.now ≡ words_in self.now number }
    {
        entry_at(self.items.as_slice(), number).words.as_slice()
    }

    /// The groups of the entry of a number.
    pub fn opening(&self, number: u64) -> Opening
        requires { number < length self.now }
        ensures { option_map (λ (x : ItemOf). x.opening) (item_in number self.now) ≡ Some result }
    {
        entry_at(self.items.as_slice(), number).opening
    }

    /// Opens the launch that takes from the front of the entries that wait.
    pub fn open(&mut self, pending: &Pending)
        requires front { (shape : Graph) × IsFront shape self.old pending.now }
        ensures { self.new ≡ all_opened pending.now.inputs self.old }
    {
        open_in(&mut self.items, pending.inputs.as_slice());
        self.place = next_waiting(self.items.as_slice(), self.place);
    }

    /// Gives the entry of a number other words.
    pub fn rewrite(&mut self, number: u64, words: Words)
        requires { number < length self.old }
        ensures { self.new ≡ with_words number words self.old }
    {
        rewrite_in(&mut self.items, number, words);
    }

    /// Counts one more group of each of the entries that have these numbers as settled. Numbers from the end on are none
    /// of them.
    pub fn count(&mut self, inputs: &[u64])
        requires apart { (n : ℕ) → count_by (λ m. m == n) inputs.now ≤ 1 }
        requires can { Each (CanCount inputs.now) self.old }
        ensures { self.new ≡ all_counted inputs.now self.old }
    {
        count_in(&mut self.items, inputs);
    }
}
