//! The units of a graph.
ghost use Rattle.std.specs.Prelude.{◌≡◌, ◌≤◌, ◌<◌, ◌++◌, length, map, IfOk, OnOk};
ghost use Rattle.wg_graph.specs.Ground.{AreAtPlaces, IsKnown, IsRightUnit};
ghost use Rattle.wg_machine.specs.Unrolling.{levels, node_and_level};
ghost use Rattle.wg_shapes.specs.Level.{top_level};
ghost use Rattle.wg_words.specs.Each.{Each};
ghost use Rattle.wg_words.specs.declared.limits.TheConstants.{MOST_NODES};

use crate::bools::bool_words;
use crate::budgets::budgets_of;
use crate::fields::{at, depth, is_entry, shares_input, stride, words_of};
use crate::known::Known;
use crate::sends::outputs;
use std::alloc::{AllocError, Global};
use wg_graph_rules::input_record;
use wg_machine::{Unit, Units};
use wg_node_attributes::NodeAttrs;
use wg_typed::Typed;
use wg_values::Structs;

/// The unit of a node at a level.
fn unit(
    alloc: Global,
    typed: &Typed,
    nodes: &[NodeAttrs],
    structs: &Structs<'_>,
    known: &Known,
    n: usize,
    level: u32,
) -> Result<Unit, AllocError>
    requires known { IsKnown typed.now nodes.now known.now }
    requires structs { structs.now ≡ typed.now.structs }
    requires few { length nodes.now ≤ MOST_NODES }
    requires within { n < length nodes.now }
    requires level { level ≤ top_level nodes.now n }
    ensures place { IfOk result (λ u. node_and_level u ≡ (n, level)) }
    ensures right { IfOk result (λ u. IsRightUnit typed.now nodes.now u) }
{
    let a = &nodes[n];
    let held = input_record(typed, a);
    let words = words_of(&typed.structs, &known.graph.sizes, held);
    let outputs = outputs(alloc, typed, nodes, known, n, level)?;
    let budgets = budgets_of(alloc, a.outputs.as_slice())?;
    let bools = bool_words(alloc, structs, held, words)?;
    Ok(Unit {
        node: n as u32,
        level,
        depth: depth(typed, nodes, known, n, level),
        words,
        stride: stride(words),
        kind: a.kind,
        entry: is_entry(typed, nodes, known, n, level, a),
        budgets,
        outputs,
        bools,
        shared: shares_input(typed, a),
    })
}

/// Adds the units of a node, by falling level.
fn add_units(
    alloc: Global,
    typed: &Typed,
    nodes: &[NodeAttrs],
    structs: &Structs<'_>,
    known: &Known,
    n: usize,
    units: &mut Units,
) -> Result<(), AllocError>
    requires known { IsKnown typed.now nodes.now known.now }
    requires structs { structs.now ≡ typed.now.structs }
    requires few { length nodes.now ≤ MOST_NODES }
    requires within { n < length nodes.now }
    ensures places { OnOk result (map node_and_level units.new ≡ map node_and_level units.old ++ levels n (top_level nodes.now n)) }
    ensures right { OnOk result (Each (IsRightUnit typed.now nodes.now) units.old → Each (IsRightUnit typed.now nodes.now) units.new) }
{
    let mut left = at(&known.levels.tops, n) + 1;
    while left > 0 {
        left -= 1;
        let made = unit(alloc, typed, nodes, structs, known, n, left)?;
        units.push(made)?;
    }
    Ok(())
}

/// The units of all nodes, in their order.
pub fn units(
    alloc: Global,
    typed: &Typed,
    nodes: &[NodeAttrs],
    structs: &Structs<'_>,
    known: &Known,
) -> Result<Units, AllocError>
    requires known { IsKnown typed.now nodes.now known.now }
    requires structs { structs.now ≡ typed.now.structs }
    requires few { length nodes.now ≤ MOST_NODES }
    ensures places { IfOk result (λ units. AreAtPlaces nodes.now units) }
    ensures right { IfOk result (λ units. Each (IsRightUnit typed.now nodes.now) units) }
{
    let mut units = Units::new(alloc);
    for n in 0..nodes.len() {
        add_units(alloc, typed, nodes, structs, known, n, &mut units)?;
    }
    Ok(units)
}
