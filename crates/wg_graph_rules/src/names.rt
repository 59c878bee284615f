//! Rules 501 to 503: the nodes of a text by name and number.
ghost use Rattle.std.specs.Prelude.{◌≡◌, ℕ, Option};
ghost use Rattle.wg_directories.specs.Listed.{IsDirectory};
ghost use Rattle.wg_graph_rules.specs.Faults.{first_of, IsFound, KeepsTooManyNodes};
ghost use Rattle.wg_machine.specs.Need.{is_target};
ghost use Rattle.wg_shapes.specs.TooManyNodes.{too_many_nodes as all_too_many};
ghost use Rattle.wg_shapes.specs.TwoOfOneName.{two_of_one_name};

use crate::fault::GraphFault;
use crate::lookups::node_place;
use wg_directories::{Directory, find};
use wg_node_attributes::NodeAttrs;
use wg_typed::Typed;
use wg_words::Place;
use wg_words::limits::MOST_NODES;

/// Whether a node was found at this place.
fn is_at(found: Option<usize>, n: usize) -> bool
    ensures { result ≡ is_target n found }
{
    match found {
        Some(m) => m == n,
        None => false,
    }
}

/// The first node whose name and index one before it has.
fn first_repeated(typed: &Typed, nodes: &[NodeAttrs], directory: &Directory) -> Option<Place>
    requires { IsDirectory nodes.now directory.now }
    ensures { result ≡ first_of (two_of_one_name typed.now nodes.now) }
{
    for n in 0..nodes.len() {
        let a = &nodes[n];
        let found = find(directory, a.name.as_slice(), a.index as usize);
        if !is_at(found, n) {
            return Some(node_place(typed, a));
        }
    }
    None
}

/// The first node above the limit.
fn first_too_many(typed: &Typed, nodes: &[NodeAttrs]) -> Option<Place>
    ensures { result ≡ first_of (all_too_many typed.now nodes.now) }
{
    match nodes.get(MOST_NODES) {
        Some(a) => Some(node_place(typed, a)),
        None => None,
    }
}

/// The first broken rule of 501 to 503.
pub fn name_fault(typed: &Typed, nodes: &[NodeAttrs], directory: &Directory) -> Option<GraphFault>
    requires { IsDirectory nodes.now directory.now }
    ensures { IsFound (KeepsTooManyNodes typed.now nodes.now) typed.now nodes.now result }
{
    if nodes.is_empty() {
        return Some(GraphFault::NoEntry);
    }
    if let Some(place) = first_repeated(typed, nodes, directory) {
        return Some(GraphFault::TwoOfOneName { place });
    }
    match first_too_many(typed, nodes) {
        Some(place) => Some(GraphFault::TooManyNodes { place }),
        None => None,
    }
}
