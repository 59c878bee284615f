ghost use Rattle.std.specs.Prelude.{◌≡◌, ◌+◌, ◌*◌, ◌<◌, ◌≤◌, ◌∷◌, ◌^◌, false, IsSome, Some, IfOk, length, slice_get};
ghost use Rattle.wg_slots.specs.SlotsOf.{slot_words as words_of_slot, waits_in};
ghost use Rattle.wg_slots.specs.Kept.{empty_kept, number_at, numbers_used, start_of, end_of, KeepsNumber, DropsNumber};

use crate::places::Places;
use std::alloc::{AllocError, Global};
use std::marker::Model;

/// The slots of one unit: the ring of those that wait and those that are free again, and by slot the number of its record.
/// Both have room for each slot from the start. Slots that had no record yet are above those that `numbers` has.
#[derive(Drop)]
pub struct UnitSlots {
    count: u32,
    words: u32,
    first: usize,
    places: Places,
    numbers: Vec<u64>,
}

impl Model for UnitSlots {
    ghost use Rattle.std.specs.Prelude.{vec_capacity};
    ghost use Rattle.wg_slots.specs.Kept.{Kept};
    ghost use Rattle.wg_slots.specs.Places.{in_use, IsRing};

    ghost Value = { Kept };

    ghost view = { λ s. record { count = s.count; words = s.words; first = s.first; waiting = s.places.waiting; numbers = in_use s.places.free 0 s.numbers.items } };

    ghost invariant = { λ s. IsRing s.count (vec_capacity s.numbers) s.places s.numbers.items };
}

/// The words of a slot for records of so many words.
pub fn slot_words(words: u32) -> usize
    ensures { result ≡ words_of_slot words }
{
    if words == 0 { 1 } else { words as usize }
}

impl UnitSlots {
    /// So many free slots, for records of so many words, in a row of the block that begins at a place.
    pub fn new(alloc: Global, count: u32, words: u32, first: usize) -> Result<UnitSlots, AllocError>
        ensures slots { IfOk result (λ slots. slots ≡ empty_kept count words first) }
        ensures small { count < 2 ^ 32 }
    {
        let places = Places::new(alloc, count as usize)?;
        let numbers = Vec::with_capacity(alloc, count as usize)?;
        Ok(UnitSlots {
            count,
            words,
            first,
            places,
            numbers,
        })
    }

    /// How many slots have no record.
    pub fn free(&self) -> u32
        ensures { result + numbers_used self.now ≡ self.now.count }
    {
        let unused = self.count as usize - self.numbers.len();
        (unused + self.places.free()) as u32
    }

    pub fn waiting(&self) -> u32
        requires { length self.now.waiting ≤ self.now.count }
        ensures { result ≡ length self.now.waiting }
    {
        self.places.waiting() as u32
    }

    /// Where a slot begins in the block.
    pub fn start(&self, slot: u32) -> usize
        requires within { slot < self.now.count }
        requires fits { end_of self.now < 2 ^ 64 }
        ensures { result ≡ start_of self.now slot }
    {
        self.first + slot as usize * slot_words(self.words)
    }

    /// The words of each record.
    pub fn words(&self) -> usize
        ensures { result ≡ self.now.words }
    {
        self.words as usize
    }

    /// Takes a slot for a record of this number, which waits after the others: one that is free again, else the least that had
    /// no record yet.
    pub fn put(&mut self, number: u64) -> u32
        requires { numbers_used self.old < self.old.count }
        ensures { KeepsNumber self.old self.new number result }
    {
        if self.places.free() == 0 {
            let slot = self.numbers.len() as u32;
            self.numbers.push_reserved(number);
            self.places.wait(slot);
            return slot;
        }
        let slot = self.places.reuse();
        self.numbers[slot as usize] = number;
        slot
    }

    /// The slot of the record that waits at a place, counted from 0.
    pub fn slot_at(&self, place: u32) -> u32
        requires { place < length self.now.waiting }
        ensures { slice_get self.now.waiting place ≡ Some result }
    {
        self.places.at(place as usize)
    }

    /// The number of a slot's record.
    pub fn number(&self, slot: u32) -> u64
        requires { IsSome (number_at self.now slot) }
        ensures { number_at self.now slot ≡ Some result }
    {
        self.numbers[slot as usize]
    }

    /// Takes the first slot out of those that wait.
    pub fn hold(&mut self) -> u32
        requires { 0 < length self.old.waiting }
        ensures waited { self.old.waiting ≡ result ∷ self.new.waiting }
        ensures same { self.new ≡ record self.old { waiting = self.new.waiting } }
    {
        self.places.hold()
    }

    /// Lets a slot that does not wait be free again.
    pub fn release(&mut self, slot: u32)
        requires there { IsSome (number_at self.old slot) }
        requires waits { waits_in self.old.waiting slot ≡ false }
        ensures { DropsNumber self.old self.new slot }
    {
        self.places.release(slot);
    }
}
