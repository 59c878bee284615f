ghost use Rattle.std.specs.Prelude.{◌≡◌, ◌↔◌, ◌≤◌, ◌<◌, ◌^◌, ◌+◌, ◌*◌, ◌++◌, ◌==◌, ◌∷◌, [], List, ℕ, length, map, IsTrue, IfOk, OnOk, if◌then◌else◌};
ghost use Rattle.std.specs.List.{flat_map};
ghost use Rattle.wg_words.specs.Each.{Each};
ghost use Rattle.wg_words.specs.declared.limits.TheConstants.{MOST_STRIDE};
ghost use Rattle.wg_machine.specs.declared.launch.Live.{Live as Waiting};
ghost use Rattle.wg_machine.specs.State.{born, kept, live_of};
ghost use Rattle.wg_machine.specs.Step.{IsReady, left_after, numbers_of, record_of, taken};
ghost use Rattle.wg_machine.specs.Units.{stride_at};
ghost use Rattle.wg_records.specs.Bags.{bytes_of, slot_at, Keeps};
ghost use Rattle.wg_records.specs.Named.{NumbersRise};
ghost use Rattle.wg_records.specs.Taking.{TakesAt};

use crate::slot::Slot;
use std::alloc::{AllocError, Global};
use std::collections::HashMap;
use wg_machine::{Sent, Shape};
use wg_words::Words;

/// The live records by number, with the next number, the number of entry records, and the bytes of all other ones.
///
/// After want of memory it is only dropped.
#[derive(Drop)]
pub struct LiveRecords {
    pub slots: HashMap<u64, Slot>,
    pub next: u64,
    pub handed: u64,
    pub bytes: u64,
}

impl LiveRecords {
    /// The records at the start of a script.
    pub fn start(alloc: Global, shape: &Shape, script: &[Sent]) -> Result<LiveRecords, AllocError>
        requires strides { (u : ℕ) → stride_at shape.now u ≤ MOST_STRIDE }
        requires few { length script.now < 2 ^ 32 }
        ensures keeps { IfOk result (λ k. Keeps shape.now k (flat_map kept (born shape.now 0 script.now))) }
        ensures next { IfOk result (λ k. k.next ≡ length script.now) }
        ensures handed { IfOk result (λ k. k.handed ≡ length script.now) }
        ensures bytes { IfOk result (λ k. k.bytes ≡ 0) }
    {
        let mut records = LiveRecords {
            slots: HashMap::new(alloc),
            next: 0,
            handed: script.len() as u64,
            bytes: 0,
        };
        records.put_all(alloc, shape, script)?;
        Ok(records)
    }

    /// The bytes of the record of a number: those of an entry record are not counted.
    fn bytes_at(&self, shape: &Shape, number: u64, unit: u32) -> u64
        ensures { result ≡ bytes_of shape.now self.now.handed number unit }
    {
        if number < self.handed {
            0
        } else {
            u64::from(shape.stride(unit))
        }
    }

    /// A record comes to be, with the next number. One without a group is not kept.
    fn put(&mut self, alloc: Global, shape: &Shape, sent: &Sent) -> Result<(), AllocError>
        requires strides { (u : ℕ) → stride_at shape.now u ≤ MOST_STRIDE }
        requires small { self.old.bytes ≤ MOST_STRIDE * self.old.next }
        requires room { self.old.next + 1 < 2 ^ 50 }
        ensures keeps { OnOk result ((bag : List Waiting) → Keeps shape.now self.old bag → Keeps shape.now self.new (bag ++ kept (live_of shape.now self.old.next sent.now))) }
        ensures next { OnOk result (self.new.next ≡ self.old.next + 1) }
        ensures handed { OnOk result (self.new.handed ≡ self.old.handed) }
        ensures small { OnOk result (self.new.bytes ≤ MOST_STRIDE * self.new.next) }
    {
        let slot = Slot::new(alloc, shape, sent)?;
        if slot.left == 0 {
            self.next += 1;
            return Ok(());
        }
        let bytes = self.bytes_at(shape, self.next, sent.unit);
        self.slots.insert(self.next, slot)?;
        self.bytes += bytes;
        self.next += 1;
        Ok(())
    }

    /// Records come to be, numbered on from the next number.
    pub fn put_all(&mut self, alloc: Global, shape: &Shape, sent: &[Sent]) -> Result<(), AllocError>
        requires strides { (u : ℕ) → stride_at shape.now u ≤ MOST_STRIDE }
        requires small { self.old.bytes ≤ MOST_STRIDE * self.old.next }
        requires room { self.old.next + length sent.now < 2 ^ 50 }
        ensures keeps { OnOk result ((bag : List Waiting) → Keeps shape.now self.old bag → Keeps shape.now self.new (bag ++ flat_map kept (born shape.now self.old.next sent.now))) }
        ensures next { OnOk result (self.new.next ≡ self.old.next + length sent.now) }
        ensures handed { OnOk result (self.new.handed ≡ self.old.handed) }
        ensures small { OnOk result (self.new.bytes ≤ MOST_STRIDE * self.new.next) }
    {
        for record in sent {
            self.put(alloc, shape, record)?;
        }
        Ok(())
    }

    /// A group of the record of a number has run, with new words if there are some.
    fn take(
        &mut self,
        alloc: Global,
        shape: &Shape,
        number: u64,
        at: &[u32; 3],
        new: &Option<Words>,
    ) -> Result<(), AllocError>
        ensures takes { OnOk result (TakesAt shape.now number at.now new.now self.old self.new) }
    {
        let Some(slot) = self.slots.remove(&number) else {
            return Ok(());
        };
        if slot.left <= 1 {
            let bytes = self.bytes_at(shape, number, slot.unit);
            self.bytes = self.bytes.saturating_sub(bytes);
            return Ok(());
        }
        let slot = slot.after_group(alloc, at, new)?;
        self.slots.insert(number, slot)?;
        Ok(())
    }

    /// A group of the records of these numbers has run. In a bag that allows that, the machine's bag is what is left.
    pub fn take_all(
        &mut self,
        alloc: Global,
        shape: &Shape,
        numbers: &[u64],
        at: &[u32; 3],
        new: &Option<Words>,
    ) -> Result<(), AllocError>
        requires rise { NumbersRise 0 numbers.now }
        ensures keeps { OnOk result ((bag : List Waiting) → Keeps shape.now self.old bag → numbers_of (map record_of (taken numbers.now bag)) ≡ numbers.now → ((unit : ℕ) × Each (IsReady unit at.now) (taken numbers.now bag)) → Keeps shape.now self.new (left_after numbers.now at.now new.now bag)) }
        ensures next { OnOk result (self.new.next ≡ self.old.next) }
        ensures handed { OnOk result (self.new.handed ≡ self.old.handed) }
        ensures small { OnOk result (self.new.bytes ≤ self.old.bytes) }
    {
        for i in 0..numbers.len() {
            self.take(alloc, shape, numbers[i], at, new)?;
        }
        Ok(())
    }

    /// Whether no record lives.
    pub fn is_empty(&self) -> bool
        ensures { (shape : _) (bag : List Waiting) → Keeps shape self.now bag → (IsTrue result ↔ (bag ≡ [])) }
    {
        self.slots.is_empty()
    }
}
