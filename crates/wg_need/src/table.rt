ghost use Rattle.std.specs.Prelude.{◌≡◌, ℕ, ◌-◌, ◌<◌, ◌≤◌, ◌^◌, All, IfOk, [], ◌∷◌, length, slice_get, slice_index, take, drop, min, unwrap_or};
ghost use Rattle.std.specs.List.{sum_by};
ghost use Rattle.wg_machine.specs.declared.shape.Unit.{Unit as UnitOf};
ghost use Rattle.wg_machine.specs.Need.{need};
ghost use Rattle.wg_need.specs.Block.{AreEnds};
ghost use Rattle.wg_need.specs.Rows.{need_at, need_by, IsSoundRow};
ghost use Rattle.wg_need.specs.Scratch.{seen_at};

use crate::sums::{Seen, sum_up};
use std::alloc::{AllocError, Global};
use std::marker::Model;
use wg_machine::{Shape, Unit};

/// How many records a launch may send to a unit.
#[derive(Clone, Copy, Debug, PartialEq, Eq)]
pub struct Need {
    pub unit: u32,
    pub records: u128,
}

/// A row of needs for each unit, the rows one after the other in one block. `ends` has where each ends.
#[derive(Debug, Drop)]
pub struct Needs {
    ends: Vec<usize>,
    needs: Vec<Need>,
}

impl Model for Needs {
    ghost use Rattle.std.specs.Prelude.{List, length};
    ghost use Rattle.wg_need.specs.declared.table.Need.{Need};
    ghost use Rattle.wg_need.specs.Block.{rows_from, AreEnds};

    ghost Value = { List (List Need) };

    ghost view = { λ n. rows_from 0 n.ends.items n.needs.items };

    ghost invariant = { λ n. AreEnds 0 n.ends.items (length n.needs.items) };
}

impl Needs {
    /// How many rows there are.
    pub fn len(&self) -> usize
        ensures { result ≡ length self.now }
    {
        self.ends.as_slice().len()
    }

    /// The needs of a unit.
    pub fn row(&self, unit: usize) -> &[Need]
        requires { unit < length self.now }
        ensures { result.now ≡ unwrap_or (slice_get self.now unit) [] }
    {
        row_of(self.ends.as_slice(), self.needs.as_slice(), unit)
    }
}

/// A row of a block with these ends.
fn row_of<'a>(ends: &[usize], needs: &'a [Need], row: usize) -> &'a [Need]
    requires row { row < length ends.now }
    requires ends { AreEnds 0 ends.now (length needs.now) }
    ensures { result.now ≡ take (slice_index ends.now row - slice_index (0 ∷ ends.now) row) (drop (slice_index (0 ∷ ends.now) row) needs.now) }
{
    part_of(needs, begin_of(ends, row), ends[row])
}

/// The needs from one place up to another.
fn part_of(needs: &[Need], begin: usize, end: usize) -> &[Need]
    requires order { begin ≤ end }
    requires within { end ≤ length needs.now }
    ensures { result.now ≡ take (end - begin) (drop begin needs.now) }
{
    &needs[begin..end]
}

/// Where a row begins: where the one before it ends.
fn begin_of(ends: &[usize], row: usize) -> usize
    requires { row < length ends.now }
    ensures { result ≡ slice_index (0 ∷ ends.now) row }
{
    if row == 0 {
        return 0;
    }
    ends[row - 1]
}

/// By unit of a shape, what one launch of it may send to each unit, without those to which it may send none.
pub fn needs_of(alloc: Global, shape: &Shape) -> Result<Needs, AllocError>
    requires few { length shape.now.units < 2 ^ 32 }
    ensures count { IfOk result (λ rows. length rows ≡ length shape.now.units) }
    ensures needs { IfOk result (λ rows. (u v : ℕ) → v < length shape.now.units → need_at rows u v ≡ need shape.now u v) }
    ensures sound { IfOk result (λ rows. All (IsSoundRow (length shape.now.units)) rows) }
{
    let units = shape.units.as_slice();
    let none = Seen {
        place: 0,
        budget: 0,
    };
    let mut seen = vec![in alloc; none; units.len()]?;
    rows_of(alloc, units, &mut seen)
}

/// The needs of units. Nothing was seen of any unit before.
fn rows_of(alloc: Global, units: &[Unit], seen: &mut [Seen]) -> Result<Needs, AllocError>
    requires count { length seen.old ≡ length units.now }
    requires none { (v : ℕ) → (seen_at seen.old v).place ≡ 0 }
    ensures count { IfOk result (λ rows. length rows ≡ length units.now) }
    ensures needs { IfOk result (λ rows. (u v : ℕ) → v < length units.now → need_at rows u v ≡ need_by units.now u v) }
    ensures sound { IfOk result (λ rows. All (IsSoundRow (length units.now)) rows) }
{
    let mut ends = Vec::with_capacity(alloc, units.len())?;
    let mut needs = Vec::with_capacity(alloc, count_outputs(units))?;
    for unit in units {
        sum_up(
            unit.outputs.as_slice(),
            unit.budgets.as_slice(),
            seen,
            &mut needs,
        )?;
        ends.push(needs.len())?;
    }
    Ok(Needs { ends, needs })
}

/// How many outputs units have, or the greatest number where they have more.
fn count_outputs(units: &[Unit]) -> usize
    ensures { result ≡ min (sum_by (λ (unit : UnitOf). length unit.outputs) units.now) (2 ^ 64 - 1) }
{
    let mut count: usize = 0;
    for unit in units {
        count = count.saturating_add(unit.outputs.as_slice().len());
    }
    count
}

#[cfg(test)]
mod tests;
