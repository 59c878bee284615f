ghost use Rattle.std.specs.Prelude.{◌≡◌, ◌≤◌, ◌&&◌, ◌==◌, ℕ, not, length, slice_get, IfOk, IsTrue};
ghost use Rattle.wg_words.specs.declared.limits.TheConstants.{MOST_NODES};
ghost use Rattle.wg_chains.specs.Arrived.{IsFirstOrNone};
ghost use Rattle.wg_chains.specs.Rows.{flag as flag_of, leads as flag_at, AreLinks, IsSquare};
ghost use Rattle.wg_shapes.specs.Cycle.{OnCycle, joins, recurs_if};

use crate::closure::closure;
use crate::rows::{Flags, Rows, flag, leads};
use std::alloc::{AllocError, Global};
use wg_node_attributes::NodeAttrs;

/// The row of a node, without the node itself where it has a declared depth.
fn joined(alloc: Global, row: &Flags, n: usize, declared: bool) -> Result<Flags, AllocError>
    ensures size { IfOk result (λ r. length r ≡ length row.now) }
    ensures flags { IfOk result (λ r. (m : ℕ) → flag_of r m ≡ (flag_of row.now m && not (n == m && declared))) }
{
    let mut flags = Flags::new(alloc);
    for m in 0..row.len() {
        flags.push(flag(row, m) & !((n == m) & declared))?;
    }
    Ok(flags)
}

/// Whether a node has a declared depth.
fn is_declared(nodes: &[NodeAttrs], n: usize) -> bool
    ensures { result ≡ recurs_if (slice_get nodes.now n) }
{
    match nodes.get(n) {
        Some(a) => a.recursion.is_some(),
        None => false,
    }
}

/// The rows of the nodes, each without itself where it has a declared depth.
fn undeclared(alloc: Global, nodes: &[NodeAttrs], rows: &Rows) -> Result<Rows, AllocError>
    requires links { AreLinks nodes.now rows.now }
    ensures square { IfOk result (λ r. IsSquare (length nodes.now) r) }
    ensures joins { IfOk result (λ r. (n m : ℕ) → flag_at r n m ≡ joins nodes.now n m) }
{
    let list = rows.as_slice();
    let mut next = Rows::new(alloc);
    for n in 0..nodes.len() {
        let declared = is_declared(nodes, n);
        let row = joined(alloc, &list[n], n, declared)?;
        next.push(row)?;
    }
    Ok(next)
}

/// The first number that has its own flag.
fn first_back(rows: &Rows) -> Option<u32>
    requires few { length rows.now ≤ MOST_NODES }
    ensures { IsFirstOrNone (λ n. IsTrue (flag_at rows.now n n)) result }
{
    for n in 0..rows.len() {
        if leads(rows, n, n) {
            return Some(n as u32);
        }
    }
    None
}

/// The first node that lies on a cycle.
pub fn first_on_cycle(
    alloc: Global,
    nodes: &[NodeAttrs],
    rows: &Rows,
) -> Result<Option<u32>, AllocError>
    requires few { length nodes.now ≤ MOST_NODES }
    requires links { AreLinks nodes.now rows.now }
    ensures { IfOk result (λ r. IsFirstOrNone (OnCycle nodes.now) r) }
{
    let joined = undeclared(alloc, nodes, rows)?;
    let closed = closure(alloc, joined)?;
    Ok(first_back(&closed))
}
