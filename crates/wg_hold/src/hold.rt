ghost use Rattle.std.specs.Prelude.{◌≡◌, ◌≢◌, ℕ, ◌++◌, ◌∷◌, [], ◌+◌, ◌<◌, ◌≤◌, ◌↔◌, IfOk, IsTrue, None, Some, filter, length, replicate, slice_index, false, true};
ghost use Rattle.std.specs.Option.{option_map};
ghost use Rattle.wg_words.specs.Each.{Each};
ghost use Rattle.wg_words.specs.declared.limits.TheConstants.{GRID_BOUND};
ghost use Rattle.wg_machine.specs.GoodShape.{IsGoodShape};
ghost use Rattle.wg_machine.specs.Grids.{grid_of, groups_in};
ghost use Rattle.wg_machine.specs.Need.{need};
ghost use Rattle.wg_machine.specs.Step.{has_number};
ghost use Rattle.wg_machine.specs.Units.{kind_at, words_at};
ghost use Rattle.wg_room.specs.Counts.{HasSlotsLeft, Reserves, need_at};
ghost use Rattle.wg_standing.specs.Moves.{slot_bytes};
ghost use Rattle.wg_store.specs.declared.item.Item.{Item as ItemOf};
ghost use Rattle.wg_store.specs.Best.{IsBestOf};
ghost use Rattle.wg_store.specs.Items.{CanCount, all_counted, all_opened, fits_unit, has_groups, has_left, item_in, item_of, pending_of, waits_item, with_words, words_in};
ghost use Rattle.wg_hold.specs.RowsOf.{EndsWith};
ghost use Rattle.wg_hold.specs.Held.{AreApart, IsHeldSound};

use crate::rows::Rows;
use crate::steps::{open_all, total};
use std::alloc::{AllocError, Global};
use std::marker::Model;
use wg_keep::Opening;
use wg_machine::{Sent, Shape, few_units, strides_are_small};
use wg_room::Room;
use wg_standing::Pending;
use wg_store::{Item, best_unit, slots_pending};
use wg_words::{Word, Words};

/// The records in slots of a graph's units, with the slots used and reserved, and their bytes.
#[derive(Drop)]
pub struct Hold {
    shape: Shape,
    rows: Rows,
    room: Room,
    bytes: u64,
}

impl Model for Hold {
    ghost use Rattle.wg_hold.specs.Held.{Held};
    ghost use Rattle.wg_hold.specs.Parts.{IsHold};

    ghost Value = { Held };

    ghost view = { λ h. record { shape = h.shape; items = h.rows.items; room = h.room } };

    ghost invariant = { λ h. IsHold h.shape h.rows h.room h.bytes };
}

impl Hold {
    /// So many free slots of each unit. No later call takes memory but `front`.
    pub fn new(alloc: Global, shape: Shape, counts: &[u32]) -> Result<Hold, AllocError>
        requires good { IsGoodShape shape }
        requires count { length counts.now ≡ length shape.units }
        ensures shape { IfOk result (λ hold. hold.shape ≡ shape) }
        ensures items { IfOk result (λ hold. hold.items ≡ []) }
        ensures bounds { IfOk result (λ hold. hold.room.bounds ≡ counts.now) }
        ensures used { IfOk result (λ hold. hold.room.used ≡ replicate (length counts.now) 0) }
        ensures reserved { IfOk result (λ hold. hold.room.reserved ≡ replicate (length counts.now) 0) }
        ensures needs { IfOk result (λ hold. (u v : ℕ) → v < length counts.now → need_at hold.room u v ≡ need shape u v) }
        ensures within { IfOk result (λ hold. (u v : ℕ) → 0 < need_at hold.room u v → v < length counts.now) }
    {
        few_units();
        let room = Room::new(alloc, &shape, counts)?;
        let units = shape.units.as_slice().len() as u32;
        let rows = Rows::new(alloc, total(counts)?, units)?;
        Ok(Hold {
            shape,
            rows,
            room,
            bytes: 0,
        })
    }

    /// What holds of every hold.
    pub fn keeps_laws(&self)
        ensures { IsHeldSound self.now }
    {
        self.rows.keeps_laws();
    }

    pub fn shape(&self) -> &Shape
        ensures { result.now ≡ self.now.shape }
    {
        &self.shape
    }

    /// Whether no slot has a record.
    pub fn is_empty(&self) -> bool
        ensures { IsTrue result ↔ (self.now.items ≡ []) }
    {
        self.rows.is_empty()
    }

    /// The bytes of the slots in use.
    pub fn bytes(&self) -> u64
        ensures { result ≡ slot_bytes self.now.shape 0 self.now.room.used }
    {
        self.bytes
    }

    /// Of the units of records that wait, the deepest that has room, then the least.
    pub fn best(&self) -> Option<u32>
        ensures { IsBestOf self.now.shape self.now.room self.now.items result }
    {
        best_unit(&self.shape, &self.room, self.rows.scan())
    }

    /// Whether there are slots left for all that a launch of a unit may send.
    pub fn has_room(&self, unit: u32) -> bool
        requires { unit < length self.now.shape.units }
        ensures { IsTrue result ↔ HasSlotsLeft self.now.room unit }
    {
        self.room.has_room(unit)
    }

    /// The launch of a unit that takes from the front of its records that wait.
    pub fn front(&self, alloc: Global, unit: u32, ticket: u64) -> Result<Pending, AllocError>
        requires some { fits_unit unit self.now.items ≢ [] }
        ensures { IfOk result (λ pending. pending ≡ pending_of ticket self.now.shape unit (fits_unit unit self.now.items)) }
    {
        slots_pending(alloc, &self.shape, self.rows.scan(), unit, ticket)
    }

    /// The words of the record with a number.
    pub fn words(&self, number: u64) -> &[Word]
        requires there { item_in number self.now.items ≢ None }
        ensures { result.now ≡ words_in self.now.items number }
    {
        let Some(item) = self.rows.get(number) else {
            unreachable!();
        };
        item.words.as_slice()
    }

    /// How far the groups of the record with a number are opened and have settled.
    pub fn opening(&self, number: u64) -> Opening
        requires there { item_in number self.now.items ≢ None }
        ensures { option_map (λ (x : ItemOf). x.opening) (item_in number self.now.items) ≡ Some result }
    {
        let Some(item) = self.rows.get(number) else {
            unreachable!();
        };
        item.opening
    }

    /// Opens the next group of each record that the launch at the front of a unit takes.
    pub fn open(&mut self, pending: &Pending)
        requires some { fits_unit pending.now.unit self.old.items ≢ [] }
        requires front { pending.now ≡ pending_of pending.now.ticket self.old.shape pending.now.unit (fits_unit pending.now.unit self.old.items) }
        ensures { self.new ≡ record self.old { items = all_opened pending.now.inputs self.old.items } }
    {
        self.rows.keeps_laws();
        open_all(&mut self.rows, pending.inputs.as_slice());
    }

    /// Reserves slots for what a launch of a unit may send.
    pub fn reserve(&mut self, unit: u32)
        requires unit { unit < length self.old.shape.units }
        requires room { HasSlotsLeft self.old.room unit }
        ensures reserves { Reserves self.old.room self.new.room unit }
        ensures same { self.new ≡ record self.old { room = self.new.room } }
    {
        self.room.reserve(unit);
    }

    /// Gives back the slots that were reserved for a launch of a unit.
    pub fn give_back(&mut self, unit: u32)
        requires unit { unit < length self.old.shape.units }
        requires reserved { (v : ℕ) → need_at self.old.room unit v ≤ slice_index self.old.room.reserved v }
        ensures reserves { Reserves self.new.room self.old.room unit }
        ensures same { self.new ≡ record self.old { room = self.new.room } }
    {
        self.room.release(unit);
    }

    /// Gives the record with a number other words.
    pub fn rewrite(&mut self, number: u64, words: Words)
        requires there { item_in number self.old.items ≢ None }
        requires words { (x : ItemOf) → item_in number self.old.items ≡ Some x → length words ≡ words_at self.old.shape x.unit }
        ensures { self.new ≡ record self.old { items = with_words number words self.old.items } }
    {
        self.rows.keeps_laws();
        self.rows.write(number, words);
    }

    /// Counts one more group of each of these records as settled; those with none left go. A number of none of them counts nothing.
    pub fn count(&mut self, inputs: &[u64])
        requires apart { AreApart inputs.now }
        requires can { Each (CanCount inputs.now) self.old.items }
        requires ends { Each (λ (x : ItemOf). has_number inputs.now x.number ≡ true → x.opening.left ≡ 1 → waits_item x ≡ false) self.old.items }
        ensures items { self.new.items ≡ filter has_left (all_counted inputs.now self.old.items) }
        ensures shape { self.new.shape ≡ self.old.shape }
        ensures room { self.new.room ≡ record self.old.room { used = self.new.room.used } }
    {
        self.rows.keeps_laws();
        for number in inputs {
            self.count_one(*number);
        }
    }

    fn count_one(&mut self, number: u64)
        requires { Each (EndsWith number) self.old.items }
        ensures items { self.new.items ≡ filter has_left (all_counted (number ∷ []) self.old.items) }
        ensures shape { self.new.shape ≡ self.old.shape }
        ensures room { self.new.room ≡ record self.old.room { used = self.new.room.used } }
    {
        let Some(unit) = self.rows.count(number) else {
            return;
        };
        self.room.leave(unit);
        self.bytes -= u64::from(self.shape.stride(unit));
    }

    /// A record comes to a free slot of its unit.
    pub fn put(&mut self, number: u64, sent: Sent)
        requires above { Each (λ (x : ItemOf). x.number < number) self.old.items }
        requires unit { sent.unit < length self.old.shape.units }
        requires words { length sent.words ≡ words_at self.old.shape sent.unit }
        requires groups { has_groups self.old.shape sent ≡ true }
        requires few { groups_in (grid_of (kind_at self.old.shape sent.unit) sent.words) < GRID_BOUND }
        requires free { slice_index self.old.room.used sent.unit < slice_index self.old.room.bounds sent.unit }
        ensures items { self.new.items ≡ self.old.items ++ item_of self.old.shape number sent ∷ [] }
        ensures shape { self.new.shape ≡ self.old.shape }
        ensures room { self.new.room ≡ record self.old.room { used = self.new.room.used } }
    {
        few_units();
        strides_are_small();
        let unit = sent.unit;
        self.rows.push(Item::new(&self.shape, number, sent));
        self.room.arrive(unit);
        self.bytes += u64::from(self.shape.stride(unit));
    }
}
