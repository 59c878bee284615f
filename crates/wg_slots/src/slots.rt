ghost use Rattle.std.specs.Prelude.{◌≡◌, ℕ, ◌+◌, ◌*◌, ◌<◌, ◌^◌, All, IsSome, Some, IfOk, OnOk, length, slice_get, slice_set, slice_index};
ghost use Rattle.std.specs.List.{sum_by};
ghost use Rattle.wg_machine.specs.declared.launch.Record.{Record as RecordOf};
ghost use Rattle.wg_slots.specs.SlotsOf.{all_free, slots_at, record_at, waiting_of, free_of, slot_words as words_of_slot, row_words, IsHeld, Puts, HoldsFirst, Releases, Writes};
ghost use Rattle.wg_slots.specs.Layout.{IsLaid, AreEmpty};

use crate::block;
use crate::unit::{UnitSlots, slot_words};
use std::alloc::{AllocError, Global};
use std::marker::Model;
use wg_machine::Record;
use wg_words::Word;

/// Fixed slots for the records of each unit, in one block of words.
///
/// A record is copied into a free slot and stays there. It waits, in rising order of number, until it is held; a held one is
/// named by its slot until it is released. After `new` no call takes memory, or time that grows with the slots.
#[derive(Drop)]
pub struct Slots {
    units: Vec<UnitSlots>,
    block: Vec<Word>,
}

/// A record as its slot has it.
#[derive(Clone, Copy, Debug)]
pub struct Seen<'a> {
    pub number: u64,
    pub words: &'a [Word],
}

impl Model for Slots {
    ghost use Rattle.std.specs.Prelude.{List, length, map};
    ghost use Rattle.wg_slots.specs.SlotsOf.{SlotsOf};
    ghost use Rattle.wg_slots.specs.Kept.{shown};
    ghost use Rattle.wg_slots.specs.Layout.{IsLaid};

    ghost Value = { List SlotsOf };

    ghost view = { λ s. map (shown s.block.items) s.units.items };

    ghost invariant = { λ s. IsLaid s.units.items (length s.block.items) };
}

/// Where a row of so many slots ends. More words than a place can name are more than there is memory for.
fn row_end(first: usize, count: u32, words: u32) -> Result<usize, AllocError>
    ensures end { IfOk result (λ end. end ≡ first + count * words_of_slot words) }
    ensures fits { IfOk result (λ end. end < 2 ^ 64) }
{
    let words = count as usize * slot_words(words);
    first.checked_add(words).ok_or(AllocError)
}

/// The slots of the units, with their rows one after the other, and where the last row ends.
fn lay_out(
    alloc: Global,
    counts: &[u32],
    words: &[u32],
) -> Result<(Vec<UnitSlots>, usize), AllocError>
    requires { length words.now ≡ length counts.now }
    ensures laid { IfOk result (λ r. IsLaid r.0.items r.1) }
    ensures count { IfOk result (λ r. length r.0.items ≡ length counts.now) }
    ensures empty { IfOk result (λ r. AreEmpty counts.now words.now r.0.items) }
{
    let mut units = Vec::new(alloc);
    let mut first = 0;
    for (unit, count) in counts.iter().enumerate() {
        let end = row_end(first, *count, words[unit])?;
        units.push(UnitSlots::new(alloc, *count, words[unit], first)?)?;
        first = end;
    }
    Ok((units, first))
}

impl Slots {
    /// So many free slots of each unit, for records of so many words.
    pub fn new(alloc: Global, counts: &[u32], words: &[u32]) -> Result<Slots, AllocError>
        requires { length words.now ≡ length counts.now }
        ensures count { IfOk result (λ slots. length slots ≡ length counts.now) }
        ensures free { IfOk result (λ slots. (u : ℕ) → u < length slots → slots_at slots u ≡ all_free (slice_index counts.now u) (slice_index words.now u)) }
    {
        let (units, words) = lay_out(alloc, counts, words)?;
        let block = vec![in alloc; 0u32; words]?;
        Ok(Slots { units, block })
    }

    /// How many words the block has: those of all slots.
    pub fn block(&self) -> u64
        ensures { result ≡ sum_by row_words self.now }
    {
        self.block.as_slice().len() as u64
    }

    /// How many slots of a unit have no record.
    pub fn free(&self, unit: u32) -> u32
        requires { unit < length self.now }
        ensures { result ≡ free_of (slots_at self.now unit) }
    {
        self.units[unit as usize].free()
    }

    /// How many records wait at a unit.
    pub fn waiting(&self, unit: u32) -> u32
        requires { unit < length self.now }
        ensures { result ≡ length (waiting_of (slots_at self.now unit)) }
    {
        self.units[unit as usize].waiting()
    }

    /// Copies a record into a free slot, where it waits after the others of its unit.
    pub fn put(&mut self, unit: u32, item: Record)
        requires unit { unit < length self.old }
        requires free { 0 < free_of (slots_at self.old unit) }
        requires words { length item.words ≡ (slots_at self.old unit).words }
        requires last { All (λ (r : RecordOf). r.number < item.number) (waiting_of (slots_at self.old unit)) }
        ensures puts { Puts (slots_at self.old unit) (slots_at self.new unit) item }
        ensures others { self.new ≡ slice_set self.old unit (slots_at self.new unit) }
    {
        let slots = &mut self.units[unit as usize];
        let slot = slots.put(item.number);
        let start = slots.start(slot);
        block::write(&mut self.block, start, item.words.as_slice());
    }

    /// The record in a slot.
    fn seen(&self, unit: u32, slot: u32) -> Seen<'_>
        requires unit { unit < length self.now }
        requires there { IsSome (record_at (slots_at self.now unit) slot) }
        ensures { record_at (slots_at self.now unit) slot ≡ Some (record { number = result.number; words = result.words.now }) }
    {
        let slots = &self.units[unit as usize];
        let start = slots.start(slot);
        Seen {
            number: slots.number(slot),
            words: block::part(&self.block, start, slots.words()),
        }
    }

    /// The record that waits at a place, counted from 0, behind its slot.
    pub fn front(&self, unit: u32, place: u32) -> (u32, Seen<'_>)
        requires unit { unit < length self.now }
        requires place { place < length (waiting_of (slots_at self.now unit)) }
        ensures waits { slice_get (waiting_of (slots_at self.now unit)) place ≡ Some (record { number = result.1.number; words = result.1.words.now }) }
        ensures slot { slice_get (slots_at self.now unit).places place ≡ Some result.0 }
        ensures there { record_at (slots_at self.now unit) result.0 ≡ Some (record { number = result.1.number; words = result.1.words.now }) }
    {
        let slot = self.units[unit as usize].slot_at(place);
        (slot, self.seen(unit, slot))
    }

    /// Holds the first record that waits at a unit, and gives its slot.
    pub fn hold(&mut self, unit: u32) -> u32
        requires unit { unit < length self.old }
        requires waits { 0 < length (waiting_of (slots_at self.old unit)) }
        ensures holds { HoldsFirst (slots_at self.old unit) (slots_at self.new unit) result }
        ensures others { self.new ≡ slice_set self.old unit (slots_at self.new unit) }
    {
        let slots = &mut self.units[unit as usize];
        slots.hold()
    }

    /// The record of a slot that is held.
    pub fn held(&self, unit: u32, slot: u32) -> Seen<'_>
        requires unit { unit < length self.now }
        requires held { IsHeld (slots_at self.now unit) slot }
        ensures { record_at (slots_at self.now unit) slot ≡ Some (record { number = result.number; words = result.words.now }) }
    {
        self.seen(unit, slot)
    }

    /// Gives the record in a slot other words.
    fn write(&mut self, unit: u32, slot: u32, words: &[Word])
        requires unit { unit < length self.old }
        requires there { IsSome (record_at (slots_at self.old unit) slot) }
        requires words { length words.now ≡ (slots_at self.old unit).words }
        ensures writes { Writes (slots_at self.old unit) (slots_at self.new unit) slot words.now }
        ensures others { self.new ≡ slice_set self.old unit (slots_at self.new unit) }
    {
        let start = self.units[unit as usize].start(slot);
        block::write(&mut self.block, start, words);
    }

    /// Gives the first record that waits at a unit other words.
    pub fn write_front(&mut self, unit: u32, words: &[Word])
        requires unit { unit < length self.old }
        requires waits { 0 < length (waiting_of (slots_at self.old unit)) }
        requires words { length words.now ≡ (slots_at self.old unit).words }
        ensures writes { (slot : ℕ) → slice_get (slots_at self.old unit).places 0 ≡ Some slot → Writes (slots_at self.old unit) (slots_at self.new unit) slot words.now }
        ensures others { self.new ≡ slice_set self.old unit (slots_at self.new unit) }
    {
        let first = self.units[unit as usize].slot_at(0);
        self.write(unit, first, words);
    }

    /// Gives the record of a slot that is held other words.
    pub fn write_held(&mut self, unit: u32, slot: u32, words: &[Word])
        requires unit { unit < length self.old }
        requires held { IsHeld (slots_at self.old unit) slot }
        requires words { length words.now ≡ (slots_at self.old unit).words }
        ensures writes { Writes (slots_at self.old unit) (slots_at self.new unit) slot words.now }
        ensures others { self.new ≡ slice_set self.old unit (slots_at self.new unit) }
    {
        self.write(unit, slot, words);
    }

    /// Releases a slot that is held.
    pub fn release(&mut self, unit: u32, slot: u32)
        requires unit { unit < length self.old }
        requires held { IsHeld (slots_at self.old unit) slot }
        ensures releases { Releases (slots_at self.old unit) (slots_at self.new unit) slot }
        ensures others { self.new ≡ slice_set self.old unit (slots_at self.new unit) }
    {
        let slots = &mut self.units[unit as usize];
        slots.release(slot);
    }
}

#[cfg(test)]
mod tests;
