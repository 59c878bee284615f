ghost use Rattle.std.specs.Prelude.{◌≡◌, ◌≤◌, length, map, IfErr, IfOk, OnOk};
ghost use Rattle.wg_graph.specs.Ground.{IsKnown};
ghost use Rattle.wg_graph_rules.specs.Faults.{IsFirstFault, KeepsRules};
ghost use Rattle.wg_machine.specs.GoodShape.{IsGoodShape};
ghost use Rattle.wg_shapes.specs.Limits.{AreGoodAttrs};
ghost use Rattle.wg_shapes.specs.ShapeOf as s;
ghost use Rattle.wg_typed.specs.Layout.{AreInOrder};
ghost use Rattle.wg_words.specs.declared.limits.TheConstants.{MOST_NODES};

use crate::filling::units;
use crate::known::Known;
use sqlite_items::Items as List;
use std::alloc::{AllocError, Global};
use wg_graph_rules::{GraphFault, examine};
use wg_layout::structs_take_what_their_fields_take;
use wg_machine::{NodeName, NodeNames, Shape};
use wg_node_attributes::NodeAttrs;
use wg_shapes::shapes_are_good;
use wg_typed::{Typed, TypedBuffer};
use wg_units::levels_of;
use wg_values::Structs;
use wg_words::{Names, TryCopy};

fn node_names(alloc: Global, nodes: &[NodeAttrs]) -> Result<NodeNames, AllocError>
    ensures { IfOk result (λ names. names ≡ map s.node_name nodes.now) }
{
    let mut names = NodeNames::new(alloc);
    for a in nodes {
        let name = a.name.copy(alloc)?;
        names.push(NodeName {
            name,
            index: a.index,
        })?;
    }
    Ok(names)
}

fn buffer_names(alloc: Global, buffers: &[TypedBuffer]) -> Result<Names, AllocError>
    ensures { IfOk result (λ names. names ≡ map s.buffer_name buffers.now) }
{
    let mut names = Names::new(alloc);
    for b in buffers {
        let name = b.name.name.copy(alloc)?;
        names.push(name)?;
    }
    Ok(names)
}

/// The shape of a graph that keeps the rules.
fn shape_of(
    alloc: Global,
    typed: &Typed,
    nodes: &[NodeAttrs],
    known: &Known,
) -> Result<Shape, AllocError>
    requires known { IsKnown typed.now nodes.now known.now }
    requires few { length nodes.now ≤ MOST_NODES }
    ensures { IfOk result (λ shape. s.IsShapeOf typed.now nodes.now shape) }
{
    let structs = Structs::new(alloc, &typed.structs)?;
    let units = units(alloc, typed, nodes, &structs, known)?;
    let names = node_names(alloc, nodes)?;
    let buffers = buffer_names(alloc, typed.buffers.as_slice())?;
    Ok(Shape {
        nodes: names,
        units,
        buffers,
    })
}

/// What is known of a graph that keeps the rules, or the first that is broken.
fn known_of(alloc: Global, typed: &Typed, nodes: &[NodeAttrs]) -> Result<Known, GraphFault>
    requires good { AreGoodAttrs typed.now nodes.now }
    ensures known { IfOk result (λ known. IsKnown typed.now nodes.now known) }
    ensures few { OnOk result (length nodes.now ≤ MOST_NODES) }
    ensures fault { IfErr result (λ f. IsFirstFault typed.now nodes.now f) }
{
    let graph = examine(alloc, typed, nodes)?;
    let levels = levels_of(alloc, nodes, &graph.rows)?;
    Ok(Known { graph, levels })
}

/// The shape of a text's graph (DirectX-Specs, Work Graphs; levels, depths and limits are this project's own), from its typed form
/// and what its attributes say. It answers the shape just where no rule on graphs is broken, 501 to 508, and else the first that
/// is, or that memory is wanting.
pub fn build(alloc: Global, typed: &Typed, attrs: &[NodeAttrs]) -> Result<Shape, GraphFault>
    requires good { AreGoodAttrs typed.now attrs.now }
    requires order { AreInOrder typed.now.structs }
    ensures kept { OnOk result (KeepsRules typed.now attrs.now) }
    ensures shape { IfOk result (λ shape. s.IsShapeOf typed.now attrs.now shape) }
    ensures good { IfOk result (λ shape. IsGoodShape shape) }
    ensures fault { IfErr result (λ f. IsFirstFault typed.now attrs.now f) }
{
    shapes_are_good();
    structs_take_what_their_fields_take();
    let known = known_of(alloc, typed, attrs)?;
    let shape = shape_of(alloc, typed, attrs, &known)?;
    Ok(shape)
}
