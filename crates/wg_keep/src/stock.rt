ghost use Rattle.std.specs.Prelude.{◌≡◌, ℕ, ◌+◌, ◌<◌, ◌≤◌, ◌^◌, ◌↔◌, All, IsTrue, IfOk, IfNone, IfSome, length, map, slice_index, slice_set};
ghost use Rattle.wg_machine.specs.declared.launch.Record.{Record as RecordOf};
ghost use Rattle.wg_machine.specs.GoodShape.{IsGoodShape};
ghost use Rattle.wg_machine.specs.declared.shape.Unit.{Unit as Node};
ghost use Rattle.wg_pick.specs.Order.{IsWaiting, Precedes};
ghost use Rattle.wg_room.specs.Counts.{HasSlotsLeft, Reserves, need_at};
ghost use Rattle.wg_slots.specs.SlotsOf.{HoldsFirst, IsHeld, Puts, Releases, Writes, free_of, slots_at, waiting_of};
ghost use Rattle.wg_keep.specs.Stock.{IsEmptyStock, IsFrontOrHeld, IsPickOf, IsStock, KeepsOthers, NoPickOf};

use std::alloc::{AllocError, Global};
use wg_machine::{Record, Shape, few_units, strides_are_small};
use wg_pick::Picker;
use wg_room::Room;
use wg_slots::Slots;
use wg_words::Word;

/// The records in slots, with which units wait, the slots in use and those reserved, and the bytes in use.
#[derive(Drop)]
pub struct Stock {
    pub shape: Shape,
    pub slots: Slots,
    pub room: Room,
    pub picker: Picker,
    pub bytes: u64,
}

impl Stock {
    /// A stock of so many free slots of each unit. No later call takes memory.
    pub fn new(alloc: Global, shape: Shape, counts: &[u32]) -> Result<Stock, AllocError>
        requires good { IsGoodShape shape }
        requires count { length counts.now ≡ length shape.units }
        ensures shape { IfOk result (λ stock. stock.shape ≡ shape) }
        ensures empty { IfOk result (λ stock. IsEmptyStock stock counts.now) }
        ensures sound { IfOk result IsStock }
    {
        few_units();
        let words = words_of(alloc, &shape)?;
        let slots = Slots::new(alloc, counts, &words)?;
        let room = Room::new(alloc, &shape, counts)?;
        let picker = Picker::new(alloc, &shape)?;
        Ok(Stock {
            shape,
            slots,
            room,
            picker,
            bytes: 0,
        })
    }

    /// Puts a record into a free slot of its unit, where it waits after the others.
    pub fn put(&mut self, unit: u32, item: Record)
        requires sound { IsStock self.old }
        requires unit { unit < length self.old.shape.units }
        requires free { 0 < free_of (slots_at self.old.slots unit) }
        requires words { length item.words ≡ (slots_at self.old.slots unit).words }
        requires last { All (λ (r : RecordOf). r.number < item.number) (waiting_of (slots_at self.old.slots unit)) }
        ensures puts { Puts (slots_at self.old.slots unit) (slots_at self.new.slots unit) item }
        ensures others { KeepsOthers self.old self.new unit }
        ensures sound { IsStock self.new }
    {
        few_units();
        strides_are_small();
        self.slots.put(unit, item);
        self.picker.set(unit, true);
        self.room.arrive(unit);
        self.bytes += u64::from(self.shape.stride(unit));
    }

    /// Holds the first record that waits at a unit, and gives its slot.
    pub fn hold(&mut self, unit: u32) -> u32
        requires sound { IsStock self.old }
        requires unit { unit < length self.old.shape.units }
        requires waits { 0 < length (waiting_of (slots_at self.old.slots unit)) }
        ensures holds { HoldsFirst (slots_at self.old.slots unit) (slots_at self.new.slots unit) result }
        ensures others { KeepsOthers self.old self.new unit }
        ensures used { self.new.room ≡ self.old.room }
        ensures sound { IsStock self.new }
    {
        let slot = self.slots.hold(unit);
        let left = self.slots.waiting(unit);
        self.picker.set(unit, left > 0);
        slot
    }

    /// Releases a slot that is held.
    pub fn release(&mut self, unit: u32, slot: u32)
        requires sound { IsStock self.old }
        requires unit { unit < length self.old.shape.units }
        requires held { IsHeld (slots_at self.old.slots unit) slot }
        ensures releases { Releases (slots_at self.old.slots unit) (slots_at self.new.slots unit) slot }
        ensures others { KeepsOthers self.old self.new unit }
        ensures sound { IsStock self.new }
    {
        self.slots.release(unit, slot);
        self.room.leave(unit);
        self.bytes -= u64::from(self.shape.stride(unit));
    }

    /// Gives the record of a slot other words: one that is held, or the first that waits.
    pub fn rewrite(&mut self, unit: u32, slot: u32, words: &[Word])
        requires sound { IsStock self.old }
        requires unit { unit < length self.old.shape.units }
        requires words { length words.now ≡ (slots_at self.old.slots unit).words }
        requires there { IsFrontOrHeld (slots_at self.old.slots unit) slot }
        ensures writes { Writes (slots_at self.old.slots unit) (slots_at self.new.slots unit) slot words.now }
        ensures others { KeepsOthers self.old self.new unit }
        ensures sound { IsStock self.new }
    {
        self.write(unit, slot, words);
    }

    fn write(&mut self, unit: u32, slot: u32, words: &[Word])
        requires unit { unit < length self.old.slots }
        requires words { length words.now ≡ (slots_at self.old.slots unit).words }
        requires there { IsFrontOrHeld (slots_at self.old.slots unit) slot }
        ensures writes { Writes (slots_at self.old.slots unit) (slots_at self.new.slots unit) slot words.now }
        ensures others { self.new.slots ≡ slice_set self.old.slots unit (slots_at self.new.slots unit) }
        ensures same { self.new ≡ record self.old { slots = self.new.slots } }
    {
        if self.slots.waiting(unit) > 0 && self.slots.front(unit, 0).0 == slot {
            self.slots.write_front(unit, words);
        } else {
            self.slots.write_held(unit, slot, words);
        }
    }

    /// Whether there are slots left for all that a launch of a unit may send.
    pub fn has_room(&self, unit: u32) -> bool
        requires sound { IsStock self.now }
        requires unit { unit < length self.now.shape.units }
        ensures { IsTrue result ↔ HasSlotsLeft self.now.room unit }
    {
        self.room.has_room(unit)
    }

    /// The deepest unit that waits and has room, the least of them.
    pub fn pick(&self) -> Option<u32>
        requires { IsStock self.now }
        ensures some { IfSome result (IsPickOf self.now) }
        ensures none { IfNone result (NoPickOf self.now) }
    {
        self.first_fit()
    }

    // The first unit in the order of picking that waits and has room.
    fn first_fit(&self) -> Option<u32>
        requires { IsStock self.now }
        ensures waits { IfSome result (IsWaiting self.now.picker) }
        ensures room { IfSome result (HasSlotsLeft self.now.room) }
        ensures first { (v : ℕ) → IsWaiting self.now.picker v → Precedes self.now.picker v result → HasSlotsLeft self.now.room v → ⊥ }
    {
        self.picker.pick(|unit| self.room.has_room(unit))
    }

    /// Reserves slots for what a launch of a unit may send.
    pub fn reserve(&mut self, unit: u32)
        requires sound { IsStock self.old }
        requires unit { unit < length self.old.shape.units }
        requires room { HasSlotsLeft self.old.room unit }
        ensures reserves { Reserves self.old.room self.new.room unit }
        ensures same { self.new ≡ record self.old { room = self.new.room } }
        ensures sound { IsStock self.new }
    {
        self.room.reserve(unit);
    }

    /// Gives back the slots that were reserved for a launch of a unit.
    pub fn give_back(&mut self, unit: u32)
        requires sound { IsStock self.old }
        requires unit { unit < length self.old.shape.units }
        requires reserved { (v : ℕ) → need_at self.old.room unit v ≤ slice_index self.old.room.reserved v }
        ensures reserves { Reserves self.new.room self.old.room unit }
        ensures same { self.new ≡ record self.old { room = self.new.room } }
        ensures sound { IsStock self.new }
    {
        self.room.release(unit);
    }
}

/// The words of each unit's records.
fn words_of(alloc: Global, shape: &Shape) -> Result<Vec<u32>, AllocError>
    ensures { IfOk result (λ words. words.items ≡ map (λ (u : Node). u.words) shape.now.units) }
{
    let mut words = Vec::new(alloc);
    for unit in shape.units.as_slice() {
        words.push(unit.words)?;
    }
    Ok(words)
}
