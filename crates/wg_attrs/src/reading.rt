//! Reads the attributes of a typed text.
ghost use Rattle.std.specs.Prelude.{◌≡◌, IfOk, IfErr};
ghost use Rattle.wg_attrs.specs.Faults.{IsFault, IsFirstBroken, Tells, told};
ghost use Rattle.wg_attrs.specs.declared.fault.AttrFault.TheVariants.{Memory};
ghost use Rattle.wg_node_attributes.specs.Nodes.{nodes_said};
ghost use Rattle.wg_node_reading.specs.Sized.{AreSized};
ghost use Rattle.wg_typing.specs.Attributes.{AreRight};
ghost use Rattle.wg_typing.specs.declared.fault.AttributeRule.{AttributeRule};
ghost use Rattle.wg_words.specs.declared.place.Place.{Place};

use crate::fault::{AttrFault, fault_of};
use std::alloc::Global;
use wg_attribute_rules::first_attribute_fault;
use wg_node_attributes::NodesAttrs;
use wg_node_reading::read_nodes;
use wg_typed::Typed;
use wg_typing::first_attribute_fault_is_least;

/// What the attributes of a text say of its nodes, in the order of the text; or the rule that they break at the least place, and
/// there of the least number (DirectX-Specs, Work Graphs, "Shader function attributes", "Node output attributes"; which rule is
/// answered is this project's own).
pub fn read_attrs(alloc: Global, typed: &Typed) -> Result<NodesAttrs, AttrFault>
    requires sized { AreSized typed.now.structs }
    ensures right { IfOk result (λ _. AreRight typed.now) }
    ensures said { IfOk result (λ nodes. nodes ≡ nodes_said typed.now) }
    ensures fault { IfErr result (λ fault. IsFault typed.now fault) }
    ensures only { (rule : AttributeRule) (place : Place) → IsFirstBroken typed.now rule place → Tells (told rule place) result }
    ensures none { AreRight typed.now → IfErr result (λ fault. fault ≡ Memory) }
{
    first_attribute_fault_is_least();
    let first = first_attribute_fault(alloc, typed)?;
    match first {
        Some(broken) => Err(fault_of(broken)),
        None => Ok(read_nodes(alloc, typed)?),
    }
}
