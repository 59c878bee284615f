ghost use Rattle.std.specs.Prelude.{◌≡◌, ◌+◌, ◌<◌, ◌≤◌, ◌∷◌, ◌++◌, [], Some, IfOk, length, slice_get};
ghost use Rattle.wg_slots.specs.Places.{PlacesOf};

use std::alloc::{AllocError, Global};
use std::collections::VecDeque;
use std::marker::Model;

/// Slots in one ring: first those that wait, in their order, then those that were released and are free again.
#[derive(Drop)]
pub struct Places {
    ring: VecDeque<u32>,
    waiting: usize,
}

impl Model for Places {
    ghost use Rattle.std.specs.Prelude.{◌≤◌, length, take, drop};
    ghost use Rattle.std.specs.VecDeque.{deque_capacity};
    ghost use Rattle.wg_slots.specs.Places.{PlacesOf};

    ghost Value = { PlacesOf };

    ghost view = { λ p. record { waiting = take p.waiting p.ring.items; free = drop p.waiting p.ring.items; room = deque_capacity p.ring } };

    ghost invariant = { λ p. p.waiting ≤ length p.ring.items };
}

impl Places {
    /// No slot, and room for so many.
    pub fn new(alloc: Global, room: usize) -> Result<Places, AllocError>
        ensures { IfOk result (λ places. places ≡ record { waiting = []; free = []; room = room }) }
    {
        let ring = VecDeque::with_capacity(alloc, room)?;
        Ok(Places { ring, waiting: 0 })
    }

    /// How many slots wait.
    pub fn waiting(&self) -> usize
        ensures { result ≡ length self.now.waiting }
    {
        self.waiting
    }

    /// How many slots are free again.
    pub fn free(&self) -> usize
        ensures { result ≡ length self.now.free }
    {
        self.ring.len() - self.waiting
    }

    /// The slot that waits at a place, counted from 0.
    pub fn at(&self, place: usize) -> u32
        requires { place < length self.now.waiting }
        ensures { slice_get self.now.waiting place ≡ Some result }
    {
        self.ring[place]
    }

    /// Lets the first slot that is free again wait after the others. It stays where it is in the ring.
    pub fn reuse(&mut self) -> u32
        requires { 0 < length self.old.free }
        ensures free { self.old.free ≡ result ∷ self.new.free }
        ensures same { self.new ≡ record { waiting = self.old.waiting ++ result ∷ []; free = self.new.free; room = self.old.room } }
    {
        let slot = self.ring[self.waiting];
        self.waiting += 1;
        slot
    }

    /// Lets a slot wait after the others where none is free again.
    pub fn wait(&mut self, slot: u32)
        requires none { length self.old.free ≡ 0 }
        requires room { length self.old.waiting < self.old.room }
        ensures { self.new ≡ record self.old { waiting = self.old.waiting ++ slot ∷ [] } }
    {
        self.ring.push_back_reserved(slot);
        self.waiting += 1;
    }

    /// Takes out the first slot that waits.
    pub fn hold(&mut self) -> u32
        requires { 0 < length self.old.waiting }
        ensures waited { self.old.waiting ≡ result ∷ self.new.waiting }
        ensures same { self.new ≡ record self.old { waiting = self.new.waiting } }
    {
        self.waiting -= 1;
        match self.ring.pop_front() {
            Some(slot) => slot,
            None => unreachable!(),
        }
    }

    /// Lets a slot be free again.
    pub fn release(&mut self, slot: u32)
        requires { length self.old.waiting + length self.old.free < self.old.room }
        ensures { self.new ≡ record self.old { free = self.old.free ++ slot ∷ [] } }
    {
        self.ring.push_back_reserved(slot);
    }
}
