//! The outputs of a unit.
ghost use Rattle.std.specs.Prelude.{◌≡◌, ◌≤◌, ◌<◌, ◌∷◌, [], List, Some, length, slice_get, take, IfOk};
ghost use Rattle.std.specs.List.{AllZip};
ghost use Rattle.wg_graph.specs.Ground.{AreAtPlaces, IsKnown};
ghost use Rattle.wg_machine.specs.declared.shape.Output.{Output as Sent};
ghost use Rattle.wg_machine.specs.declared.shape.Unit.{Unit};
ghost use Rattle.wg_node_attributes.specs.declared.attributes.NodeAttrs.{NodeAttrs as Node};
ghost use Rattle.wg_node_attributes.specs.declared.attributes.OutputAttr.{OutputAttr as Said};
ghost use Rattle.wg_shapes.specs.Level.{top_level};
ghost use Rattle.wg_shapes.specs.ShapeOf.{IsOutputOf};

use crate::fields::words_of;
use crate::known::Known;
use std::alloc::{AllocError, Global};
use wg_directories::elements;
use wg_graph_rules::output_record;
use wg_machine::{Output, Outputs};
use wg_node_attributes::NodeAttrs;
use wg_typed::Typed;
use wg_units::arrivals;

/// An output of the unit of a node at a level, by its number.
fn output(
    alloc: Global,
    typed: &Typed,
    nodes: &[NodeAttrs],
    known: &Known,
    n: usize,
    level: u32,
    number: usize,
) -> Result<Output, AllocError>
    requires known { IsKnown typed.now nodes.now known.now }
    requires within { n < length nodes.now }
    requires level { level ≤ top_level nodes.now n }
    requires number { (a : Node) → slice_get nodes.now n ≡ Some a → number < length a.outputs }
    ensures { IfOk result (λ sent. (a : Node) (o : Said) (units : List Unit) → slice_get nodes.now n ≡ Some a → slice_get a.outputs number ≡ Some o → AreAtPlaces nodes.now units → IsOutputOf typed.now nodes.now units a (n, level) o sent) }
{
    let a = &nodes[n];
    let o = &a.outputs.as_slice()[number];
    let found = elements(alloc, &known.graph.directory, o)?;
    let targets = arrivals(alloc, &known.levels, n, level, found.as_slice())?;
    Ok(Output {
        budget: o.budget,
        words: words_of(
            &typed.structs,
            &known.graph.sizes,
            output_record(typed, a, o),
        ),
        elements: targets,
    })
}

/// The outputs of the unit of a node at a level.
pub fn outputs(
    alloc: Global,
    typed: &Typed,
    nodes: &[NodeAttrs],
    known: &Known,
    n: usize,
    level: u32,
) -> Result<Outputs, AllocError>
    requires known { IsKnown typed.now nodes.now known.now }
    requires within { n < length nodes.now }
    requires level { level ≤ top_level nodes.now n }
    ensures { IfOk result (λ all. (a : Node) (units : List Unit) → slice_get nodes.now n ≡ Some a → AreAtPlaces nodes.now units → AllZip (λ (o : Said) (sent : Sent). IsOutputOf typed.now nodes.now units a (n, level) o sent) a.outputs all) }
{
    let count = nodes[n].outputs.len();
    let mut all = Outputs::new(alloc);
    for number in 0..count {
        let sent = output(alloc, typed, nodes, known, n, level, number)?;
        all.push(sent)?;
    }
    Ok(all)
}
