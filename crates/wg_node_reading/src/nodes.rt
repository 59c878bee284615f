//! The nodes of a text with their outputs.
ghost use Rattle.std.specs.Prelude.{◌≡◌, ◌++◌, map, IfOk, OnOk};
ghost use Rattle.wg_layout.specs.Sizes.{table_of};
ghost use Rattle.wg_node_attributes.specs.Nodes as n;
ghost use Rattle.wg_node_reading.specs.Sized.{AreSized};

use crate::axes::threads_said;
use crate::budgets::{most_at, owner_of, owners, place_in};
use crate::ids::{id_index, id_name, output_index};
use crate::kinds::kind_said;
use crate::numbers::{count_said, number_said};
use crate::parameters::{attributes_at, is_array_at, name_at};
use sqlite_items::Items as List;
use std::alloc::{AllocError, Global};
use wg_attribute_arguments::has;
use wg_layout::Sizes;
use wg_node_attributes::{NodeAttrs, NodesAttrs, OutputAttr, OutputAttrs};
use wg_typed::{Typed, TypedAttribute, TypedEntry, TypedFunction, TypedParameter, TypedStruct};

/// The nodes to which an output sends.
fn elements_said(array: bool, list: &[TypedAttribute]) -> u32
    ensures { result ≡ n.elements_said array list.now }
{
    if array {
        count_said(256, b"NodeArraySize", list)
    } else {
        1
    }
}

/// What is said of the output that is the parameter of a number, where these own the budgets of the node.
fn output_said(
    alloc: Global,
    parameters: &[TypedParameter],
    budgets: &[u32],
    number: u32,
) -> Result<OutputAttr, AllocError>
    ensures { IfOk result (λ o. o ≡ n.output_said parameters.now budgets.now number) }
{
    let list = attributes_at(parameters, number);
    let array = is_array_at(parameters, number);
    let owner = owner_of(parameters, number);
    let budget = place_in(budgets, owner)?;
    let name = id_name(alloc, name_at(parameters, number), list)?;
    Ok(OutputAttr {
        param: number,
        budget,
        most: most_at(parameters, owner),
        name,
        index: output_index(array, list),
        elements: elements_said(array, list),
        array,
        sparse: has(b"AllowSparseNodes", list),
    })
}

fn outputs_said(
    alloc: Global,
    parameters: &[TypedParameter],
    outputs: &[u32],
) -> Result<OutputAttrs, AllocError>
    ensures { IfOk result (λ list. list ≡ n.outputs_said parameters.now outputs.now) }
{
    let budgets = owners(alloc, parameters, outputs)?;
    let mut list = OutputAttrs::new(alloc);
    for number in outputs {
        let output = output_said(alloc, parameters, budgets.as_slice(), *number)?;
        list.push(output)?;
    }
    Ok(list)
}

/// What is said of a node, by the number of its function.
fn node_said(
    alloc: Global,
    structs: &List<TypedStruct>,
    sizes: &Sizes,
    number: u32,
    f: &TypedFunction,
    e: &TypedEntry,
) -> Result<NodeAttrs, AllocError>
    requires table { sizes.now ≡ table_of structs.now }
    requires sized { AreSized structs.now }
    ensures { IfOk result (λ a. a ≡ n.node_said structs.now number f.now e.now) }
{
    let list = f.attributes.as_slice();
    let parameters = f.parameters.as_slice();
    let threads = threads_said(list);
    let name = id_name(alloc, f.name.name.as_slice(), list)?;
    let kind = kind_said(alloc, structs, sizes, parameters, e.input, list)?;
    let outputs = outputs_said(alloc, parameters, e.outputs.as_slice())?;
    Ok(NodeAttrs {
        function: number,
        name,
        index: id_index(list),
        kind,
        threads: [threads.x, threads.y, threads.z],
        marked: has(b"NodeIsProgramEntry", list),
        recursion: number_said(1, 31, b"NodeMaxRecursionDepth", list),
        input: e.input,
        outputs,
    })
}

/// One function more, which is a node or is not.
fn with_function(
    alloc: Global,
    structs: &List<TypedStruct>,
    sizes: &Sizes,
    number: u32,
    f: &TypedFunction,
    nodes: &mut NodesAttrs,
) -> Result<(), AllocError>
    requires table { sizes.now ≡ table_of structs.now }
    requires sized { AreSized structs.now }
    ensures { OnOk result (nodes.new ≡ nodes.old ++ n.node_if structs.now number f.now f.now.entry) }
{
    let Some(e) = &f.entry else {
        return Ok(());
    };
    let node = node_said(alloc, structs, sizes, number, f, e)?;
    nodes.push(node)
}

fn nodes_of(
    alloc: Global,
    structs: &List<TypedStruct>,
    sizes: &Sizes,
    functions: &[TypedFunction],
) -> Result<NodesAttrs, AllocError>
    requires table { sizes.now ≡ table_of structs.now }
    requires sized { AreSized structs.now }
    ensures { IfOk result (λ nodes. nodes ≡ n.nodes_from structs.now 0 functions.now) }
{
    let mut nodes = NodesAttrs::new(alloc);
    let mut number: u32 = 0;
    for f in functions {
        with_function(alloc, structs, sizes, number, f, &mut nodes)?;
        number = number.checked_add(1).ok_or(AllocError)?;
    }
    Ok(nodes)
}

/// What the attributes of a text say of its nodes, in the order of the text (DirectX-Specs, Work Graphs, "Shader function
/// attributes", "Node output attributes"). More functions than 32 bits can count have no room in memory.
pub fn read_nodes(alloc: Global, typed: &Typed) -> Result<NodesAttrs, AllocError>
    requires sized { AreSized typed.now.structs }
    ensures said { IfOk result (λ nodes. nodes ≡ n.nodes_said typed.now) }
{
    let sizes = Sizes::new(alloc, &typed.structs)?;
    nodes_of(alloc, &typed.structs, &sizes, typed.functions.as_slice())
}
