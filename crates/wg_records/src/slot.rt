ghost use Rattle.std.specs.Prelude.{◌≡◌, ◌≤◌, IfOk, is_some, unwrap_or};
ghost use Rattle.std.specs.Map.{lookup};
ghost use Rattle.wg_records.specs.Slots.{group_place, has_left, has_ran, is_inside, is_ready_slot, IsBorn, RunsGroup};

use std::alloc::{AllocError, Global};
use std::collections::HashMap;
use wg_machine::{Sent, Shape, count_groups};
use wg_words::{TryCopy, Words};

/// A thread group by its coordinates in its record's grid.
#[derive(Clone, Copy, Debug, PartialEq, Eq, Hash)]
pub struct GroupPlace {
    pub x: u32,
    pub y: u32,
    pub z: u32,
}

/// What is kept of a live record: `left` counts its groups that have not run, `ran` has those that have.
#[derive(Drop)]
pub struct Slot {
    pub unit: u32,
    pub words: Words,
    pub grid: [u32; 3],
    pub left: u128,
    pub ran: HashMap<GroupPlace, ()>,
}

fn place_at(at: &[u32; 3]) -> GroupPlace
    ensures { result ≡ group_place at.now }
{
    GroupPlace {
        x: at[0],
        y: at[1],
        z: at[2],
    }
}

fn lies_inside(grid: &[u32; 3], at: &[u32; 3]) -> bool
    ensures { result ≡ is_inside grid.now at.now }
{
    at[0] < grid[0] && at[1] < grid[1] && at[2] < grid[2]
}

/// The new words of a record, or its own where there are no new ones.
fn words_after(alloc: Global, words: Words, new: &Option<Words>) -> Result<Words, AllocError>
    ensures { IfOk result (λ after. after ≡ unwrap_or new.now words) }
{
    match new {
        Some(new) => new.copy(alloc),
        None => Ok(words),
    }
}

impl Slot {
    /// The slot of a record that comes to be.
    pub fn new(alloc: Global, shape: &Shape, sent: &Sent) -> Result<Slot, AllocError>
        ensures { IfOk result (IsBorn shape.now sent.now) }
    {
        let grid = shape.kind(sent.unit).grid(sent.words.as_slice());
        Ok(Slot {
            unit: sent.unit,
            words: sent.words.copy(alloc)?,
            grid,
            left: count_groups(&grid),
            ran: HashMap::new(alloc),
        })
    }

    fn has_group(&self, at: &[u32; 3]) -> bool
        ensures { result ≡ has_left self.now at.now }
    {
        lies_inside(&self.grid, at) && !self.ran.contains_key(&place_at(at))
    }

    /// Whether the record is of the unit, and has the group left.
    pub fn is_ready(&self, unit: u32, at: &[u32; 3]) -> bool
        ensures { result ≡ is_ready_slot unit at.now self.now }
    {
        self.unit == unit && self.has_group(at)
    }

    /// The slot after a group of its record has run, with the record's new words if there are some.
    pub fn after_group(
        self,
        alloc: Global,
        at: &[u32; 3],
        new: &Option<Words>,
    ) -> Result<Slot, AllocError>
        requires { 1 ≤ self.left }
        ensures { IfOk result (RunsGroup at.now new.now self) }
    {
        let Slot {
            unit,
            words,
            grid,
            left,
            mut ran,
        } = self;
        ran.insert(place_at(at), ())?;
        Ok(Slot {
            unit,
            words: words_after(alloc, words, new)?,
            grid,
            left: left - 1,
            ran,
        })
    }
}
