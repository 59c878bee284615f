ghost use Rattle.std.specs.Prelude.{◌≡◌, ◌≤◌, ℕ, length, slice_get, IfOk, IfErr, OnOk, Some};
ghost use Rattle.wg_chains.specs.Arrived.{AreReached};
ghost use Rattle.wg_chains.specs.Rows.{AreLinks};
ghost use Rattle.wg_directories.specs.Listed.{IsDirectory};
ghost use Rattle.wg_graph_rules.specs.Faults.{IsFirstFault, IsFound, KeepsRecordDiffers, KeepsRules, place_of_node};
ghost use Rattle.wg_layout.specs.Sizes.{table_of};
ghost use Rattle.wg_shapes.specs.Limits.{AreGoodAttrs};
ghost use Rattle.wg_words.specs.declared.limits.TheConstants.{MOST_UNIT_CHAIN};

use crate::fault::GraphFault;
use crate::links::links;
use crate::lookups::{FIRST_PLACE, node_place};
use crate::names::name_fault;
use crate::outputs::output_fault;
use std::alloc::Global;
use wg_chains::{Rows, first_on_cycle, first_too_long, first_unit_depths};
use wg_directories::{Directory, directory};
use wg_layout::Sizes;
use wg_node_attributes::NodeAttrs;
use wg_typed::Typed;
use wg_words::{Place, Words};

/// What is known of a graph that keeps the rules: where its nodes are, which target which, and the depths of their first units.
#[derive(Drop)]
pub struct Examined {
    pub sizes: Sizes,
    pub directory: Directory,
    pub rows: Rows,
    pub depths: Words,
}

/// The place of a node's name.
fn place_of(typed: &Typed, nodes: &[NodeAttrs], n: u32) -> Place
    ensures { result ≡ place_of_node typed.now (slice_get nodes.now n) }
{
    match nodes.get(n as usize) {
        Some(a) => node_place(typed, a),
        None => FIRST_PLACE,
    }
}

/// The first broken rule of 501 to 506.
fn listed_fault(
    typed: &Typed,
    sizes: &Sizes,
    nodes: &[NodeAttrs],
    directory: &Directory,
) -> Option<GraphFault>
    requires table { sizes.now ≡ table_of typed.now.structs }
    requires listed { IsDirectory nodes.now directory.now }
    ensures { IsFound (KeepsRecordDiffers typed.now nodes.now) typed.now nodes.now result }
{
    match name_fault(typed, nodes, directory) {
        Some(fault) => Some(fault),
        None => output_fault(typed, sizes, nodes, directory),
    }
}

/// The targets and depths of a graph that keeps the rules 501 to 506, or the first broken rule of 507 and 508.
fn chained(
    alloc: Global,
    typed: &Typed,
    nodes: &[NodeAttrs],
    directory: &Directory,
) -> Result<(Rows, Words), GraphFault>
    requires listed { IsDirectory nodes.now directory.now }
    requires kept { KeepsRecordDiffers typed.now nodes.now }
    ensures kept { OnOk result (KeepsRules typed.now nodes.now) }
    ensures rows { IfOk result (λ r. AreLinks nodes.now r.0) }
    ensures depths { IfOk result (λ r. AreReached nodes.now MOST_UNIT_CHAIN r.1) }
    ensures fault { IfErr result (λ f. IsFirstFault typed.now nodes.now f) }
{
    let rows = links(alloc, directory, nodes)?;
    if let Some(node) = first_on_cycle(alloc, nodes, &rows)? {
        let place = place_of(typed, nodes, node);
        return Err(GraphFault::Cycle { node, place });
    }
    let depths = first_unit_depths(alloc, nodes, &rows)?;
    match first_too_long(nodes, &rows, &depths) {
        Some(node) => Err(GraphFault::ChainTooLong {
            node,
            place: place_of(typed, nodes, node),
        }),
        None => Ok((rows, depths)),
    }
}

/// Tries the rules on graphs in their order (DirectX-Specs, Work Graphs; their numbers are this project's own): what is known of a
/// graph that keeps all of them, or the first that is broken.
pub fn examine(alloc: Global, typed: &Typed, nodes: &[NodeAttrs]) -> Result<Examined, GraphFault>
    requires good { AreGoodAttrs typed.now nodes.now }
    ensures kept { OnOk result (KeepsRules typed.now nodes.now) }
    ensures sizes { IfOk result (λ e. e.sizes ≡ table_of typed.now.structs) }
    ensures directory { IfOk result (λ e. IsDirectory nodes.now e.directory) }
    ensures rows { IfOk result (λ e. AreLinks nodes.now e.rows) }
    ensures depths { IfOk result (λ e. AreReached nodes.now MOST_UNIT_CHAIN e.depths) }
    ensures fault { IfErr result (λ f. IsFirstFault typed.now nodes.now f) }
{
    let sizes = Sizes::new(alloc, &typed.structs)?;
    let directory = directory(alloc, nodes)?;
    if let Some(fault) = listed_fault(typed, &sizes, nodes, &directory) {
        return Err(fault);
    }
    let (rows, depths) = chained(alloc, typed, nodes, &directory)?;
    Ok(Examined {
        sizes,
        directory,
        rows,
        depths,
    })
}
