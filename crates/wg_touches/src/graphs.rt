//! Additive graphs.
ghost use Rattle.std.specs.Prelude.{◌≡◌, not, slice_get, Option};
ghost use Rattle.std.specs.List.{list_all};
ghost use Rattle.wg_additive.specs.Additive as a;
ghost use Rattle.wg_node_attributes.specs.Nodes.{nodes_said};
ghost use Rattle.wg_node_attributes.specs.declared.attributes.NodeAttrs.{NodeAttrs as OfNode};
ghost use Rattle.wg_touches.specs.Coalescing as c;
ghost use Rattle.wg_typed.specs.declared.typed.TypedFunction.{TypedFunction as OfFunction};

use crate::texts::text_passes;
use wg_machine::Kind;
use wg_node_attributes::NodeAttrs;
use wg_tree::ObjectWord;
use wg_typed::{Typed, TypedEntry, TypedFunction, TypedParameter, TypedParameterType};

fn is_shared_type(of: TypedParameterType) -> bool
    ensures { result ≡ a.is_shared_type of }
{
    match of {
        TypedParameterType::Object { word, .. } => {
            matches!(word, ObjectWord::RwDispatchNodeInputRecord)
        }
        TypedParameterType::Value { .. } => false,
    }
}

/// Whether the groups of a record share the words of a node's input.
fn entry_shares(parameters: &[TypedParameter], entry: &Option<TypedEntry>) -> bool
    ensures { result ≡ a.entry_shares parameters.now entry.now }
{
    let input = match entry {
        Some(entry) => entry.input,
        None => None,
    };
    let parameter = match input {
        Some(number) => parameters.get(number as usize),
        None => None,
    };
    match parameter {
        Some(parameter) => is_shared_type(parameter.of),
        None => false,
    }
}

fn none_shares(functions: &[TypedFunction]) -> bool
    ensures { result ≡ list_all (λ (f : OfFunction). not (a.shares_its_input f)) functions.now }
{
    for f in functions {
        if entry_shares(f.parameters.as_slice(), &f.entry) {
            return false;
        }
    }
    true
}

fn none_coalesces(attrs: &[NodeAttrs]) -> bool
    ensures { result ≡ list_all (λ (n : OfNode). not (c.node_coalesces n)) attrs.now }
{
    for node in attrs {
        if matches!(node.kind, Kind::Coalescing { .. }) {
            return false;
        }
    }
    true
}

/// Whether the launches of a text only add to the shared buffers, so that their order does not show there: no node coalesces,
/// none shares its input's words, and no more is done to a buffer than to add to it (this project's own rule). It takes no memory.
#[tactic(auto, using(crate::proofs::Passes::additions_alone, crate::proofs::Coalesced::as_nodes_say))]
pub fn additive(typed: &Typed, attrs: &[NodeAttrs]) -> bool
    requires said { attrs.now ≡ nodes_said typed.now }
    ensures exact { result ≡ a.is_additive c.coalesces typed.now }
{
    let alone = none_coalesces(attrs);
    let unshared = none_shares(typed.functions.as_slice());
    alone & (unshared & text_passes(typed, false))
}
