ghost use Rattle.std.specs.Prelude.{◌≡◌, ◌≤◌, if◌then◌else◌, length, IfOk};
ghost use Rattle.std.specs.List.{range_with_len};
ghost use Rattle.wg_chains.specs.Rows.{AreLinks, leads as leads_in};
ghost use Rattle.wg_node_attributes.specs.declared.attributes.NodeAttrs.{NodeAttrs as Node};
ghost use Rattle.wg_shapes.specs.Level.{depth_declared, depth_if, top_level, top_levels};
ghost use Rattle.wg_units.specs.Numbers.{first_unit, first_units, AreLevels};
ghost use Rattle.wg_words.specs.Each.{Each};
ghost use Rattle.wg_words.specs.declared.limits.TheConstants.{MOST_NODES, MOST_RECURSION_DEPTH};

use std::alloc::{AllocError, Global};
use wg_chains::{Rows, leads};
use wg_node_attributes::NodeAttrs;
use wg_words::Words;

/// The top level of each node, and the number of its first unit.
#[derive(Debug, Drop)]
pub struct Levels {
    pub tops: Words,
    pub firsts: Words,
}

/// The top level of a node: 0 where it does not target itself.
fn top(a: &NodeAttrs, itself: bool) -> u32
    ensures { result ≡ (if itself then depth_declared a.now else 0) }
{
    if itself { a.recursion.unwrap_or(0) } else { 0 }
}

fn tops(alloc: Global, nodes: &[NodeAttrs], rows: &Rows) -> Result<Words, AllocError>
    requires links { AreLinks nodes.now rows.now }
    ensures { IfOk result (λ tops. tops ≡ top_levels nodes.now) }
{
    let mut tops = Words::new(alloc);
    for n in 0..nodes.len() {
        tops.push(top(&nodes[n], leads(rows, n, n)))?;
    }
    Ok(tops)
}

fn firsts(alloc: Global, tops: &[u32]) -> Result<Words, AllocError>
    requires few { length tops.now ≤ MOST_NODES }
    requires low { Each (λ top. top ≤ MOST_RECURSION_DEPTH) tops.now }
    ensures { IfOk result (λ firsts. firsts ≡ first_units tops.now) }
{
    let mut firsts = Words::new(alloc);
    let mut at = 0;
    for n in 0..tops.len() {
        firsts.push(at)?;
        at += tops[n] + 1;
    }
    Ok(firsts)
}

/// The levels of the nodes of a graph that target one another by these rows.
pub fn levels_of(alloc: Global, nodes: &[NodeAttrs], rows: &Rows) -> Result<Levels, AllocError>
    requires links { AreLinks nodes.now rows.now }
    requires few { length nodes.now ≤ MOST_NODES }
    requires low { Each (λ (a : Node). depth_declared a ≤ MOST_RECURSION_DEPTH) nodes.now }
    ensures tops { IfOk result (λ l. l.tops ≡ top_levels nodes.now) }
    ensures lawful { IfOk result (λ l. AreLevels l) }
{
    let tops = tops(alloc, nodes, rows)?;
    let firsts = firsts(alloc, tops.as_slice())?;
    Ok(Levels { tops, firsts })
}
