ghost use Rattle.std.specs.Prelude.{◌≡◌, ℕ, ◌+◌, ◌-◌, ◌^◌, ◌<◌, ◌≤◌, ◌↔◌, All, IsTrue, IfOk, length, slice_index, slice_set, replicate};
ghost use Rattle.wg_machine.specs.Need.{need};
ghost use Rattle.wg_need.specs.Rows.{need_in, IsSoundRow};
ghost use Rattle.wg_room.specs.Sound.{IsMet};

use std::alloc::{AllocError, Global};
use std::marker::Model;
use wg_machine::Shape;
use wg_need::{Need, Needs, needs_of};

/// The slots of each unit, those that are used and those that are reserved for launches out.
#[derive(Debug, Drop)]
pub struct Room {
    bounds: Vec<u32>,
    used: Vec<u32>,
    reserved: Vec<u32>,
    needs: Needs,
}

impl Model for Room {
    ghost use Rattle.wg_room.specs.Counts.{Counts};
    ghost use Rattle.wg_room.specs.Sound.{AreSound};

    ghost Value = { Counts };

    ghost view = { λ r. record { bounds = r.bounds.items; used = r.used.items; reserved = r.reserved.items; needs = r.needs } };

    ghost invariant = { λ r. AreSound (record { bounds = r.bounds.items; used = r.used.items; reserved = r.reserved.items; needs = r.needs }) };
}

impl Room {
    ghost use Rattle.wg_room.specs.Counts.{need_at, HasSlotsLeft, Reserves};

    /// No slot of a shape's units is used or reserved. The later calls take no memory.
    pub fn new(alloc: Global, shape: &Shape, bounds: &[u32]) -> Result<Room, AllocError>
        requires count { length bounds.now ≡ length shape.now.units }
        requires few { length shape.now.units < 2 ^ 32 }
        ensures bounds { IfOk result (λ room. room.bounds ≡ bounds.now) }
        ensures used { IfOk result (λ room. room.used ≡ replicate (length bounds.now) 0) }
        ensures reserved { IfOk result (λ room. room.reserved ≡ replicate (length bounds.now) 0) }
        ensures needs { IfOk result (λ room. (u v : ℕ) → v < length bounds.now → need_at room u v ≡ need shape.now u v) }
        ensures within { IfOk result (λ room. (u v : ℕ) → 0 < need_at room u v → v < length bounds.now) }
    {
        Ok(Room {
            bounds: Vec::from_slice(alloc, bounds)?,
            used: vec![in alloc; 0; bounds.len()]?,
            reserved: vec![in alloc; 0; bounds.len()]?,
            needs: needs_of(alloc, shape)?,
        })
    }

    /// Whether each unit to which a launch of a unit may send has slots left for all of it.
    pub fn has_room(&self, unit: u32) -> bool
        requires { unit < length self.now.bounds }
        ensures { IsTrue result ↔ HasSlotsLeft self.now unit }
    {
        let needs = self.needs.row(unit as usize);
        all_fit(needs, &self.bounds, &self.used, &self.reserved)
    }

    /// Reserves what a launch of a unit may send.
    pub fn reserve(&mut self, unit: u32)
        requires unit { unit < length self.old.bounds }
        requires room { HasSlotsLeft self.old unit }
        ensures { Reserves self.old self.new unit }
    {
        reserve_all(&mut self.reserved, self.needs.row(unit as usize));
    }

    /// Gives back what a launch of a unit had reserved.
    pub fn release(&mut self, unit: u32)
        requires unit { unit < length self.old.bounds }
        requires reserved { (v : ℕ) → need_at self.old unit v ≤ slice_index self.old.reserved v }
        ensures { Reserves self.new self.old unit }
    {
        release_all(&mut self.reserved, self.needs.row(unit as usize));
    }

    /// Counts one more slot as used.
    pub fn arrive(&mut self, unit: u32)
        requires unit { unit < length self.old.bounds }
        requires fits { slice_index self.old.used unit + 1 < 2 ^ 32 }
        ensures { self.new ≡ record self.old { used = slice_set self.old.used unit (slice_index self.old.used unit + 1) } }
    {
        self.used[unit as usize] += 1;
    }

    /// Counts one slot less as used.
    pub fn leave(&mut self, unit: u32)
        requires unit { unit < length self.old.bounds }
        requires some { 1 ≤ slice_index self.old.used unit }
        ensures { self.new ≡ record self.old { used = slice_set self.old.used unit (slice_index self.old.used unit - 1) } }
    {
        self.used[unit as usize] -= 1;
    }
}

/// Whether each unit has slots left for its need.
fn all_fit(needs: &[Need], bounds: &[u32], used: &[u32], reserved: &[u32]) -> bool
    requires used { length used.now ≡ length bounds.now }
    requires reserved { length reserved.now ≡ length bounds.now }
    requires sound { IsSoundRow (length bounds.now) needs.now }
    ensures { IsTrue result ↔ All (IsMet bounds.now used.now reserved.now) needs.now }
{
    for need in needs {
        let place = need.unit as usize;
        let taken = u64::from(used[place]) + u64::from(reserved[place]);
        let free = u64::from(bounds[place]).saturating_sub(taken);
        if need.records > u128::from(free) {
            return false;
        }
    }
    true
}

/// Adds each need to what is reserved at its unit.
fn reserve_all(reserved: &mut [u32], needs: &[Need])
    requires sound { IsSoundRow (length reserved.old) needs.now }
    requires fits { (v : ℕ) → 0 < need_in needs.now v → slice_index reserved.old v + need_in needs.now v < 2 ^ 32 }
    ensures { (v : ℕ) → slice_index reserved.new v ≡ slice_index reserved.old v + need_in needs.now v }
{
    for need in needs {
        reserved[need.unit as usize] += need.records as u32;
    }
}

/// Takes each need from what is reserved at its unit.
fn release_all(reserved: &mut [u32], needs: &[Need])
    requires sound { IsSoundRow (length reserved.old) needs.now }
    requires fits { (v : ℕ) → need_in needs.now v ≤ slice_index reserved.old v }
    ensures { (v : ℕ) → slice_index reserved.old v ≡ slice_index reserved.new v + need_in needs.now v }
{
    for need in needs {
        reserved[need.unit as usize] -= need.records as u32;
    }
}

#[cfg(test)]
mod tests {
    use super::*;
    use std::test::Fail;
    use wg_machine::{Kind, NodeNames, Output, Outputs, Targets, Unit, Units};
    use wg_words::{Names, Words};

    fn unit(alloc: Global, budgets: &[u32], outputs: Outputs) -> Result<Unit, AllocError> {
        Ok(Unit {
            node: 0,
            level: 0,
            depth: 1,
            words: 0,
            stride: 4,
            kind: Kind::Thread,
            entry: false,
            budgets: Words::from_slice(alloc, budgets)?,
            outputs,
            bools: Words::new(alloc),
            shared: false,
        })
    }

    fn output(alloc: Global, budget: u32, targets: &[Option<u32>]) -> Result<Output, AllocError> {
        Ok(Output {
            budget,
            words: 0,
            elements: Targets::from_slice(alloc, targets)?,
        })
    }

    /// A unit that sends up to two records to one unit, and three to another, through two budgets.
    fn shape(alloc: Global) -> Result<Shape, AllocError>
        ensures { IfOk result (λ shape. length shape.units ≡ 3) }
    {
        let outputs = vec![in alloc;
            output(alloc, 0, &[Some(1), Some(2), None])?,
            output(alloc, 1, &[Some(2)])?,
        ]?;
        let sender = unit(alloc, &[2, 1], Outputs::from_vec(outputs))?;
        let one = unit(alloc, &[], Outputs::new(alloc))?;
        let other = unit(alloc, &[], Outputs::new(alloc))?;
        Ok(Shape {
            nodes: NodeNames::new(alloc),
            units: Units::from_vec(vec![in alloc; sender, one, other]?),
            buffers: Names::new(alloc),
        })
    }

    #[test]
    fn has_room_where_every_target_has(rt: HostRuntime) -> Result<(), Fail> {
        let mut room = Room::new(rt.alloc(), &shape(rt.alloc())?, &[0, 4, 3])?;
        assert!(rt; room.has_room(1));
        assert!(rt; room.has_room(0));
        room.reserve(0);
        assert!(rt; !room.has_room(0));
        room.release(0);
        assert!(rt; room.has_room(0));
        room.arrive(2);
        assert!(rt; !room.has_room(0));
        room.leave(2);
        assert!(rt; room.has_room(0));
        Ok(())
    }
}
