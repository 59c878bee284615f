ghost use Rattle.std.specs.Prelude.{◌≡◌, ◌≤◌, ◌<◌, ◌&&◌, ◌||◌, ℕ, length, IfOk};
ghost use Rattle.std.specs.Prelude.{◌↔◌, IsTrue};
ghost use Rattle.wg_chains.specs.Rows.{flag as flag_of, leads as flag_at, IsSquare};
ghost use Rattle.wg_shapes.specs.Cycle.{Leads};

use crate::rows::{Flags, Rows, flag};
use std::alloc::{AllocError, Global};

/// The flags of a row, and those of another where steps go by that one.
fn either(alloc: Global, row: &Flags, by: bool, other: &Flags) -> Result<Flags, AllocError>
    requires { length other.now ≤ length row.now }
    ensures size { IfOk result (λ r. length r ≡ length row.now) }
    ensures flags { IfOk result (λ r. (m : ℕ) → flag_of r m ≡ (flag_of row.now m || (by && flag_of other.now m))) }
{
    let mut flags = Flags::new(alloc);
    for m in 0..row.len() {
        flags.push(flag(row, m) | (by & flag(other, m)))?;
    }
    Ok(flags)
}

/// The rows where steps may also go through a number.
fn through(alloc: Global, rows: &Rows, k: usize) -> Result<Rows, AllocError>
    requires inside { k < length rows.now }
    requires square { IsSquare (length rows.now) rows.now }
    ensures square { IfOk result (λ r. IsSquare (length rows.now) r) }
    ensures steps { IfOk result (λ r. (i j : ℕ) → flag_at r i j ≡ (flag_at rows.now i j || (flag_at rows.now i k && flag_at rows.now k j))) }
{
    let list = rows.as_slice();
    let other = &list[k];
    let mut next = Rows::new(alloc);
    for i in 0..list.len() {
        let row = &list[i];
        let by = flag(row, k);
        let stepped = either(alloc, row, by, other)?;
        next.push(stepped)?;
    }
    Ok(next)
}

/// Where steps lead, one or more.
pub fn closure(alloc: Global, rows: Rows) -> Result<Rows, AllocError>
    requires square { IsSquare (length rows) rows }
    ensures count { IfOk result (λ r. length r ≡ length rows) }
    ensures steps { IfOk result (λ r. (i j : ℕ) → IsTrue (flag_at r i j) ↔ Leads (flag_at rows) i j) }
{
    let count = rows.len();
    let mut closed = rows;
    for k in 0..count {
        closed = through(alloc, &closed, k)?;
    }
    Ok(closed)
}
