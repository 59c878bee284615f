//! Rule 506: records of outputs and of the inputs of their targets.
ghost use Rattle.std.specs.Prelude.{◌≡◌, slice_get, Some, None};
ghost use Rattle.wg_directories.specs.Listed.{IsDirectory};
ghost use Rattle.wg_graph_rules.specs.RecordDiffers as r;
ghost use Rattle.wg_layout.specs.Sizes.{table_of};

use crate::lookups::{input_record, output_record};
use sqlite_items::Items as List;
use wg_attribute_arguments::is_grid_field;
use wg_conversions::same_type;
use wg_directories::{Directory, find};
use wg_layout::Sizes;
use wg_node_attributes::{NodeAttrs, OutputAttr};
use wg_typed::{TypeTree, Typed, TypedField, TypedStruct};

fn alike(a: bool, b: bool) -> bool
    ensures { result ≡ r.alike a b }
{
    if a { b } else { !b }
}

fn same_field(f: &TypedField, g: &TypedField) -> bool
    ensures { result ≡ r.same_field f.now g.now }
{
    same_type(f.of, g.of) & alike(is_grid_field(f), is_grid_field(g))
}

fn same_fields(fs: &[TypedField], gs: &[TypedField]) -> bool
    ensures { result ≡ r.same_fields fs.now gs.now }
{
    if fs.len() != gs.len() {
        return false;
    }
    for i in 0..fs.len() {
        if !same_field(&fs[i], &gs[i]) {
            return false;
        }
    }
    true
}

/// Whether a struct is a record type that another is too.
fn same_struct(s: &TypedStruct, structs: &List<TypedStruct>, taken: u32) -> bool
    ensures { result ≡ r.same_fields_in s.now (slice_get structs.now taken) }
{
    match structs.get(taken as usize) {
        Some(t) => same_fields(s.fields.as_slice(), t.fields.as_slice()),
        None => false,
    }
}

/// The same by the numbers of both. Of one struct nothing has to be compared.
fn same_structs(structs: &List<TypedStruct>, sent: u32, taken: u32) -> bool
    ensures { result ≡ r.same_struct (slice_get structs.now sent) (slice_get structs.now taken) }
{
    match structs.get(sent as usize) {
        Some(s) => sent == taken || same_struct(s, structs, taken),
        None => false,
    }
}

fn has_no_words(structs: &List<TypedStruct>, sizes: &Sizes, number: u32) -> bool
    requires table { sizes.now ≡ table_of structs.now }
    ensures { result ≡ r.matches structs.now None (Some number) }
{
    sizes.words(&TypeTree::Struct { number }) == 0
}

/// Whether records of one type are as those of another.
fn matches(
    structs: &List<TypedStruct>,
    sizes: &Sizes,
    sent: Option<u32>,
    taken: Option<u32>,
) -> bool
    requires table { sizes.now ≡ table_of structs.now }
    ensures { result ≡ r.matches structs.now sent taken }
{
    match (sent, taken) {
        (None, None) => true,
        (None, Some(taken)) => has_no_words(structs, sizes, taken),
        (Some(_), None) => false,
        (Some(sent), Some(taken)) => same_structs(structs, sent, taken),
    }
}

/// Whether there is a node at a place, and it does not take records of a type.
fn refuses(
    typed: &Typed,
    sizes: &Sizes,
    nodes: &[NodeAttrs],
    sent: Option<u32>,
    found: Option<usize>,
) -> bool
    requires table { sizes.now ≡ table_of typed.now.structs }
    ensures { result ≡ r.refuses_at typed.now nodes.now sent found }
{
    let Some(place) = found else {
        return false;
    };
    match nodes.get(place) {
        Some(a) => !matches(&typed.structs, sizes, sent, input_record(typed, a)),
        None => false,
    }
}

/// Whether the node of an element does not take an output's records.
pub fn differs(
    typed: &Typed,
    sizes: &Sizes,
    nodes: &[NodeAttrs],
    directory: &Directory,
    a: &NodeAttrs,
    o: &OutputAttr,
) -> bool
    requires table { sizes.now ≡ table_of typed.now.structs }
    requires listed { IsDirectory nodes.now directory.now }
    ensures { result ≡ r.differs typed.now nodes.now a.now o.now }
{
    let sent = output_record(typed, a, o);
    for e in 0..o.elements as usize {
        let found = find(directory, o.name.as_slice(), o.index as usize + e);
        if refuses(typed, sizes, nodes, sent, found) {
            return true;
        }
    }
    false
}
