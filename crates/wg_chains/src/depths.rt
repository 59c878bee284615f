ghost use Rattle.std.specs.Prelude.{◌≡◌, ◌≤◌, ◌<◌, ◌^◌, ℕ, suc, length, slice_get, IfOk};
ghost use Rattle.wg_words.specs.declared.limits.TheConstants.{MOST_NODES, MOST_UNIT_CHAIN};
ghost use Rattle.wg_chains.specs.Arrived.{IsArrived, AreReached, IsFirstOrNone, deeper_of, last_in, lower_in};
ghost use Rattle.wg_chains.specs.Rows.{AreLinks};
ghost use Rattle.wg_shapes.specs.ChainTooLong.{EndsLongChain};
ghost use Rattle.wg_shapes.specs.Level.{depth_if};

use crate::rows::{Rows, leads};
use std::alloc::{AllocError, Global};
use wg_node_attributes::NodeAttrs;
use wg_words::Words;
use wg_words::limits::MOST_UNIT_CHAIN;

/// The depth that a node declares.
fn declared(nodes: &[NodeAttrs], n: usize) -> u32
    ensures { result ≡ depth_if (slice_get nodes.now n) }
{
    match nodes.get(n) {
        Some(a) => a.recursion.unwrap_or(0),
        None => 0,
    }
}

/// How many units a node that targets itself has below its top level.
fn lower_levels(nodes: &[NodeAttrs], rows: &Rows, n: usize) -> u32
    ensures { result ≡ lower_in nodes.now rows.now n }
{
    if leads(rows, n, n) {
        declared(nodes, n)
    } else {
        0
    }
}

/// The depth of a node's last unit.
fn last(nodes: &[NodeAttrs], rows: &Rows, depths: &Words, n: usize) -> u64
    ensures value { result ≡ last_in nodes.now rows.now depths.now n }
    ensures fits { result < 2 ^ 33 }
{
    let depth = match depths.get(n) {
        Some(depth) => *depth,
        None => 0,
    };
    u64::from(depth) + u64::from(lower_levels(nodes, rows, n))
}

/// The greater of a depth and of one more than another, up to 33, where that one counts.
fn deeper(best: u64, counts: bool, last: u64) -> u64
    requires { last < 2 ^ 33 }
    ensures { result ≡ deeper_of best counts last }
{
    if counts {
        best.max((last + 1).min(MOST_UNIT_CHAIN as u64 + 1))
    } else {
        best
    }
}

/// One more than the greatest depth of the last units of the other nodes that target this one, up to 33.
fn arriving(nodes: &[NodeAttrs], rows: &Rows, depths: &Words, n: usize) -> u32
    requires links { AreLinks nodes.now rows.now }
    ensures { IsArrived nodes.now depths.now n result }
{
    let mut best = 1;
    for i in 0..nodes.len() {
        let counts = (i != n) & leads(rows, i, n);
        let last = last(nodes, rows, depths, i);
        best = deeper(best, counts, last);
    }
    best as u32
}

/// The depths after one more round.
fn round(
    alloc: Global,
    nodes: &[NodeAttrs],
    rows: &Rows,
    depths: &Words,
) -> Result<Words, AllocError>
    requires links { AreLinks nodes.now rows.now }
    ensures { IfOk result (λ r. (k : ℕ) → AreReached nodes.now k depths.now → AreReached nodes.now (suc k) r) }
{
    let mut next = Words::new(alloc);
    for n in 0..nodes.len() {
        let depth = arriving(nodes, rows, depths, n);
        next.push(depth)?;
    }
    Ok(next)
}

/// The depth 1 of each node.
fn ones(alloc: Global, nodes: &[NodeAttrs]) -> Result<Words, AllocError>
    ensures { IfOk result (λ r. AreReached nodes.now 0 r) }
{
    let mut depths = Words::new(alloc);
    for _n in 0..nodes.len() {
        depths.push(1)?;
    }
    Ok(depths)
}

/// How many units the longest chain has that ends at each node's first unit, as far as chains of up to 33 units show.
pub fn first_unit_depths(
    alloc: Global,
    nodes: &[NodeAttrs],
    rows: &Rows,
) -> Result<Words, AllocError>
    requires links { AreLinks nodes.now rows.now }
    ensures { IfOk result (λ r. AreReached nodes.now MOST_UNIT_CHAIN r) }
{
    let mut depths = ones(alloc, nodes)?;
    for _k in 0..MOST_UNIT_CHAIN {
        depths = round(alloc, nodes, rows, &depths)?;
    }
    Ok(depths)
}

/// The first node with a unit that ends too long a chain.
pub fn first_too_long(nodes: &[NodeAttrs], rows: &Rows, depths: &Words) -> Option<u32>
    requires few { length nodes.now ≤ MOST_NODES }
    requires links { AreLinks nodes.now rows.now }
    requires reached { AreReached nodes.now MOST_UNIT_CHAIN depths.now }
    ensures { IsFirstOrNone (EndsLongChain nodes.now) result }
{
    for n in 0..nodes.len() {
        let last = last(nodes, rows, depths, n);
        if last > MOST_UNIT_CHAIN as u64 {
            return Some(n as u32);
        }
    }
    None
}
