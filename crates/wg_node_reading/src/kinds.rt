//! The kinds of nodes.
ghost use Rattle.std.specs.Prelude.{◌≡◌, IfOk, slice_get};
ghost use Rattle.wg_layout.specs.Sizes.{table_of};
ghost use Rattle.wg_node_attributes.specs.Kinds as k;
ghost use Rattle.wg_node_reading.specs.Sized.{AreSized};
ghost use Rattle.wg_typed.specs.Layout.{field_range};
ghost use Rattle.wg_typed.specs.declared.types.TypeTree.TheVariants.{Struct};
ghost use Rattle.wg_typing.specs.AttributeSites.{fields_at};

use crate::axes::grid_said;
use crate::numbers::count_said;
use crate::parameters::{input_attributes, record_at};
use sqlite_items::Items as List;
use std::alloc::{AllocError, Global};
use wg_attribute_arguments::{has, is_grid_field, mode_of};
use wg_layout::{Sizes, layout};
use wg_machine::Kind;
use wg_node_attributes::{Axes, GridField};
use wg_typed::{TypeTree, TypedAttribute, TypedField, TypedParameter, TypedStruct};
use wg_typing::Mode;

/// How many directions a field of the type has.
fn parts_of(of: TypeTree) -> u32
    ensures { result ≡ k.parts_of of }
{
    match of {
        TypeTree::Vector { size, .. } => size,
        TypeTree::Scalar { .. } | TypeTree::Struct { .. } | TypeTree::Array { .. } => 1,
    }
}

/// The first field with a grid.
fn grid_field(fields: &[TypedField]) -> Option<GridField>
    ensures { result ≡ k.grid_field_from 0 fields.now }
{
    for (number, f) in fields.iter().enumerate() {
        if is_grid_field(f) {
            return Some(GridField {
                field: number,
                parts: parts_of(f.of),
            });
        }
    }
    None
}

fn fixed_grid(most: Axes) -> Kind
    ensures { result ≡ k.fixed_grid most }
{
    Kind::Grid {
        x: most.x,
        y: most.y,
        z: most.z,
    }
}

/// The word at which a field of a struct begins.
fn begin_of(
    alloc: Global,
    structs: &List<TypedStruct>,
    sizes: &Sizes,
    number: u32,
    field: usize,
) -> Result<u32, AllocError>
    requires table { sizes.now ≡ table_of structs.now }
    requires sized { AreSized structs.now }
    ensures { IfOk result (λ word. word ≡ (field_range structs.now (Struct number) field).from) }
{
    let layout = layout(alloc, structs, sizes, &TypeTree::Struct { number })?;
    match layout.fields.get(field) {
        Some(range) => Ok(range.from),
        None => Ok(0),
    }
}

/// The greatest grid of a node whose records are such structs.
fn struct_grid(
    alloc: Global,
    structs: &List<TypedStruct>,
    sizes: &Sizes,
    number: u32,
    most: Axes,
) -> Result<Kind, AllocError>
    requires table { sizes.now ≡ table_of structs.now }
    requires sized { AreSized structs.now }
    ensures { IfOk result (λ kind. kind ≡ k.field_grid structs.now number most (k.grid_field_from 0 (fields_at (slice_get structs.now number)))) }
{
    let found = match structs.get(number as usize) {
        Some(s) => grid_field(s.fields.as_slice()),
        None => None,
    };
    let Some(found) = found else {
        return Ok(fixed_grid(most));
    };
    Ok(Kind::GridField {
        first: begin_of(alloc, structs, sizes, number, found.field)?,
        parts: found.parts,
        x: most.x,
        y: most.y,
        z: most.z,
    })
}

/// The greatest grid, where the record has a field that holds one.
fn greatest_grid(
    alloc: Global,
    structs: &List<TypedStruct>,
    sizes: &Sizes,
    record_type: Option<u32>,
    most: Axes,
) -> Result<Kind, AllocError>
    requires table { sizes.now ≡ table_of structs.now }
    requires sized { AreSized structs.now }
    ensures { IfOk result (λ kind. kind ≡ k.greatest_grid structs.now record_type most) }
{
    match record_type {
        Some(number) => struct_grid(alloc, structs, sizes, number, most),
        None => Ok(fixed_grid(most)),
    }
}

fn grid_kind(
    alloc: Global,
    structs: &List<TypedStruct>,
    sizes: &Sizes,
    record_type: Option<u32>,
    list: &[TypedAttribute],
) -> Result<Kind, AllocError>
    requires table { sizes.now ≡ table_of structs.now }
    requires sized { AreSized structs.now }
    ensures { IfOk result (λ kind. kind ≡ k.grid_kind structs.now record_type list.now) }
{
    if has(b"NodeMaxDispatchGrid", list) {
        let most = grid_said(b"NodeMaxDispatchGrid", list);
        return greatest_grid(alloc, structs, sizes, record_type, most);
    }
    Ok(fixed_grid(grid_said(b"NodeDispatchGrid", list)))
}

/// The kind of a coalescing node whose input has these attributes.
fn coalesced(list: &[TypedAttribute]) -> Kind
    ensures { result ≡ k.coalesced list.now }
{
    Kind::Coalescing {
        most: count_said(256, b"MaxRecords", list),
    }
}

/// The kind of a node.
pub fn kind_said(
    alloc: Global,
    structs: &List<TypedStruct>,
    sizes: &Sizes,
    parameters: &[TypedParameter],
    input: Option<u32>,
    list: &[TypedAttribute],
) -> Result<Kind, AllocError>
    requires table { sizes.now ≡ table_of structs.now }
    requires sized { AreSized structs.now }
    ensures { IfOk result (λ kind. kind ≡ k.kind_said structs.now parameters.now input list.now) }
{
    match mode_of(list) {
        Some(Mode::Broadcasting) => {
            grid_kind(alloc, structs, sizes, record_at(parameters, input), list)
        }
        Some(Mode::Coalescing) => Ok(coalesced(input_attributes(parameters, input))),
        Some(Mode::Thread) | None => Ok(Kind::Thread),
    }
}
