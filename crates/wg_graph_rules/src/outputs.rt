//! Rules 504 to 506: the outputs of a text.
ghost use Rattle.std.specs.Prelude.{◌≡◌};
ghost use Rattle.wg_directories.specs.Listed.{IsDirectory};
ghost use Rattle.wg_graph_rules.specs.Faults.{first_of, IsFound, KeepsRecordDiffers, KeepsTooManyNodes};
ghost use Rattle.wg_graph_rules.specs.OutputRules.{is_broken as breaks};
ghost use Rattle.wg_layout.specs.Sizes.{table_of};
ghost use Rattle.wg_shapes.specs.Places.{all_outputs_where, outputs_where};

use crate::fault::GraphFault;
use crate::lookups::output_place;
use crate::records::differs;
use wg_directories::{Directory, has_absent};
use wg_layout::Sizes;
use wg_node_attributes::{NodeAttrs, OutputAttr};
use wg_typed::Typed;
use wg_words::Place;

/// A rule on single outputs.
#[derive(Clone, Copy)]
pub enum OutputRule {
    NoTarget,
    SparseNotAllowed,
    RecordDiffers,
}

fn is_broken(
    rule: OutputRule,
    typed: &Typed,
    sizes: &Sizes,
    nodes: &[NodeAttrs],
    directory: &Directory,
    a: &NodeAttrs,
    o: &OutputAttr,
) -> bool
    requires table { sizes.now ≡ table_of typed.now.structs }
    requires listed { IsDirectory nodes.now directory.now }
    ensures { result ≡ breaks typed.now nodes.now rule a.now o.now }
{
    match rule {
        OutputRule::NoTarget => !o.array & (!o.sparse & has_absent(directory, o)),
        OutputRule::SparseNotAllowed => o.array & (!o.sparse & has_absent(directory, o)),
        OutputRule::RecordDiffers => differs(typed, sizes, nodes, directory, a, o),
    }
}

/// The first of some outputs of a node that breaks a rule.
fn first_in(
    rule: OutputRule,
    typed: &Typed,
    sizes: &Sizes,
    nodes: &[NodeAttrs],
    directory: &Directory,
    a: &NodeAttrs,
    outputs: &[OutputAttr],
) -> Option<Place>
    requires table { sizes.now ≡ table_of typed.now.structs }
    requires listed { IsDirectory nodes.now directory.now }
    ensures { result ≡ first_of (outputs_where typed.now (breaks typed.now nodes.now rule a.now) a.now outputs.now) }
{
    for o in outputs {
        if is_broken(rule, typed, sizes, nodes, directory, a, o) {
            return Some(output_place(typed, a, o));
        }
    }
    None
}

/// The first output that breaks a rule.
fn first_output(
    rule: OutputRule,
    typed: &Typed,
    sizes: &Sizes,
    nodes: &[NodeAttrs],
    directory: &Directory,
) -> Option<Place>
    requires table { sizes.now ≡ table_of typed.now.structs }
    requires listed { IsDirectory nodes.now directory.now }
    ensures { result ≡ first_of (all_outputs_where typed.now (breaks typed.now nodes.now rule) nodes.now) }
{
    for a in nodes {
        let outputs = a.outputs.as_slice();
        if let Some(place) = first_in(rule, typed, sizes, nodes, directory, a, outputs) {
            return Some(place);
        }
    }
    None
}

/// The first broken rule of 504 to 506, where those before are kept.
pub fn output_fault(
    typed: &Typed,
    sizes: &Sizes,
    nodes: &[NodeAttrs],
    directory: &Directory,
) -> Option<GraphFault>
    requires table { sizes.now ≡ table_of typed.now.structs }
    requires listed { IsDirectory nodes.now directory.now }
    requires kept { KeepsTooManyNodes typed.now nodes.now }
    ensures { IsFound (KeepsRecordDiffers typed.now nodes.now) typed.now nodes.now result }
{
    if let Some(place) = first_output(OutputRule::NoTarget, typed, sizes, nodes, directory) {
        return Some(GraphFault::NoTarget { place });
    }
    if let Some(place) = first_output(
        OutputRule::SparseNotAllowed,
        typed,
        sizes,
        nodes,
        directory,
    ) {
        return Some(GraphFault::SparseNotAllowed { place });
    }
    match first_output(OutputRule::RecordDiffers, typed, sizes, nodes, directory) {
        Some(place) => Some(GraphFault::RecordDiffers { place }),
        None => None,
    }
}
