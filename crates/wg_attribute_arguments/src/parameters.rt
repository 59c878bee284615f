//! What the parameters of a node are, and the fields of its records.
ghost use Rattle.std.specs.Prelude.{◌≡◌};
ghost use Rattle.wg_typing.specs.AttributeSites as s;
ghost use Rattle.wg_typing.specs.AttributeSystem as y;
ghost use Rattle.wg_typing.specs.TypingSystem as t;

use wg_tree::{Named, ObjectWord, Scalar};
use wg_typed::{TypeTree, TypedField, TypedParameterType};
use wg_typing::ParameterKind;

fn object_kind(word: ObjectWord) -> ParameterKind
    ensures { result ≡ s.object_kind word }
{
    match word {
        ObjectWord::DispatchNodeInputRecord
        | ObjectWord::RwDispatchNodeInputRecord
        | ObjectWord::GroupNodeInputRecords
        | ObjectWord::RwGroupNodeInputRecords
        | ObjectWord::ThreadNodeInputRecord
        | ObjectWord::RwThreadNodeInputRecord
        | ObjectWord::EmptyNodeInput => ParameterKind::Input { word },
        ObjectWord::NodeOutput | ObjectWord::EmptyNodeOutput => {
            ParameterKind::Output { array: false }
        }
        ObjectWord::NodeOutputArray | ObjectWord::EmptyNodeOutputArray => {
            ParameterKind::Output { array: true }
        }
        ObjectWord::ThreadNodeOutputRecords | ObjectWord::GroupNodeOutputRecords => {
            ParameterKind::Handle
        }
    }
}

/// What a parameter of a node is.
pub fn kind_of(of: TypedParameterType) -> ParameterKind
    ensures { result ≡ s.kind_of of }
{
    match of {
        TypedParameterType::Value { .. } => ParameterKind::Value,
        TypedParameterType::Object { word, .. } => object_kind(word),
    }
}

/// `uint`, `uint2` or `uint3`.
pub fn is_uint_up_to_3(of: TypeTree) -> bool
    ensures { result ≡ t.is_uint_up_to_3 of }
{
    match of {
        TypeTree::Scalar { of } => matches!(of, Scalar::Uint),
        TypeTree::Vector { of, size } => matches!(of, Scalar::Uint) & (size <= 3),
        TypeTree::Struct { .. } | TypeTree::Array { .. } => false,
    }
}

fn is_grid_name(semantic: &Option<Named>) -> bool
    ensures { result ≡ y.is_named "SV_DispatchGrid" semantic.now }
{
    match semantic {
        Some(name) => b"SV_DispatchGrid".as_slice() == name.name.as_slice(),
        None => false,
    }
}

/// A field that may give a record's grid.
pub fn is_grid_field(field: &TypedField) -> bool
    ensures { result ≡ y.is_grid_field field.now }
{
    is_grid_name(&field.semantic) & is_uint_up_to_3(field.of)
}
