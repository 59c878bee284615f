//! What a node and its parameters lack, and what its launch mode forbids.
ghost use Rattle.std.specs.Prelude.{◌≡◌, not, is_some, Some};
ghost use Rattle.std.specs.List.{list_any};
ghost use Rattle.wg_typing.specs.AttributeArguments as g;
ghost use Rattle.wg_typing.specs.AttributeMissing as m;
ghost use Rattle.wg_typing.specs.AttributeSystem as y;
ghost use Rattle.wg_typing.specs.AttributeWrongMode as w;
ghost use Rattle.wg_typing.specs.TypingSystem as t;
ghost use Rattle.wg_typing.specs.Named.{at_name};
ghost use Rattle.wg_attribute_rules.specs.Positions.{position_of};

use crate::forms::is_one_node_text;
use crate::positions::Position;
use wg_attribute_arguments::{has, is_grid_field, is_same_name, is_uint_up_to_3, mode_of};
use wg_tree::{Directed, Direction, ObjectWord, Scalar};
use wg_typed::{
    SystemValue, TypeTree, TypedAttribute, TypedField, TypedParameter, TypedParameterType,
};
use wg_typing::{AttributeName, Mode};

/// Whether these attributes make a function a node.
pub fn is_entry(list: &[TypedAttribute]) -> bool
    ensures { result ≡ g.is_entry list.now }
{
    for a in list {
        if is_same_name(b"Shader", a.name.name.as_slice())
            & is_one_node_text(a.arguments.as_slice())
        {
            return true;
        }
    }
    false
}

fn is_broadcasting(mode: Mode) -> bool
    ensures { result ≡ g.is_broadcasting mode }
{
    matches!(mode, Mode::Broadcasting)
}

fn is_coalescing(mode: Mode) -> bool
    ensures { result ≡ g.is_coalescing mode }
{
    matches!(mode, Mode::Coalescing)
}

fn is_thread(mode: Mode) -> bool
    ensures { result ≡ g.is_thread mode }
{
    matches!(mode, Mode::Thread)
}

fn has_grid_field(fields: &[TypedField]) -> bool
    ensures { result ≡ list_any y.is_grid_field fields.now }
{
    fields.iter().any(|field| is_grid_field(field))
}

/// What a node lacks: its mode, its threads, a grid, or the field of a greatest grid.
pub fn node_lacks(list: &[TypedAttribute], fields: &[TypedField]) -> bool
    ensures { result ≡ m.node_lacks list.now fields.now }
{
    let mode = mode_of(list);
    let broadcasts = match mode {
        Some(mode) => is_broadcasting(mode),
        None => false,
    };
    let has_group = match mode {
        Some(mode) => !is_thread(mode),
        None => false,
    };
    let greatest = has(b"NodeMaxDispatchGrid", list);
    !has(b"NodeLaunch", list)
        | ((has_group & !has(b"NumThreads", list))
            | ((broadcasts & !(has(b"NodeDispatchGrid", list) | greatest))
                | (broadcasts & (greatest & !has_grid_field(fields)))))
}

/// What an output lacks: a bound on its records, and an array its size.
pub fn output_lacks(array: bool, list: &[TypedAttribute]) -> bool
    ensures { result ≡ m.output_lacks array list.now }
{
    !(has(b"MaxRecords", list) | has(b"MaxRecordsSharedWith", list))
        | (array & !has(b"NodeArraySize", list))
}

/// Whether the node's launch mode forbids an attribute that stands at a position.
pub fn is_forbidden(position: Position<'_>, name: Option<AttributeName>) -> bool
    ensures { result ≡ w.is_forbidden (position_of position.entry) name }
{
    match position {
        Position::Node { mode: Some(mode) } => {
            matches!(
                name,
                Some(AttributeName::DispatchGrid | AttributeName::MaxDispatchGrid)
            ) & !is_broadcasting(mode)
        }
        Position::Input { mode: Some(mode) } => {
            matches!(name, Some(AttributeName::MaxRecords)) & !is_coalescing(mode)
        }
        Position::Node { mode: None }
        | Position::Input { mode: None }
        | Position::Struct
        | Position::Plain
        | Position::Output { .. }
        | Position::OutputArray { .. }
        | Position::Value
        | Position::Branch => false,
    }
}

fn takes(word: ObjectWord, mode: Mode) -> bool
    ensures { result ≡ w.takes word mode }
{
    match word {
        ObjectWord::DispatchNodeInputRecord | ObjectWord::RwDispatchNodeInputRecord => {
            is_broadcasting(mode)
        }
        ObjectWord::GroupNodeInputRecords
        | ObjectWord::RwGroupNodeInputRecords
        | ObjectWord::EmptyNodeInput => is_coalescing(mode),
        ObjectWord::ThreadNodeInputRecord | ObjectWord::RwThreadNodeInputRecord => is_thread(mode),
        ObjectWord::NodeOutput
        | ObjectWord::NodeOutputArray
        | ObjectWord::EmptyNodeOutput
        | ObjectWord::EmptyNodeOutputArray
        | ObjectWord::ThreadNodeOutputRecords
        | ObjectWord::GroupNodeOutputRecords => false,
    }
}

/// Whether a node of this mode takes no such input.
pub fn refuses_input(word: ObjectWord, mode: Option<Mode>) -> bool
    ensures { result ≡ g.in_mode (λ m. not (w.takes word m)) mode }
{
    match mode {
        Some(mode) => !takes(word, mode),
        None => false,
    }
}

fn gives(value: SystemValue, mode: Mode) -> bool
    ensures { result ≡ w.gives value mode }
{
    match value {
        SystemValue::DispatchThreadId | SystemValue::GroupId => is_broadcasting(mode),
        SystemValue::GroupThreadId | SystemValue::GroupIndex => !is_thread(mode),
    }
}

/// Whether a node of this mode gives no such system value.
pub fn is_not_given(mode: Option<Mode>, value: Option<SystemValue>) -> bool
    ensures { result ≡ w.is_not_given mode value }
{
    match (mode, value) {
        (Some(mode), Some(value)) => !gives(value, mode),
        (None, _) | (_, None) => false,
    }
}

fn system_named(name: &[u8]) -> Option<SystemValue>
    ensures { result ≡ at_name t.system_names name.now }
{
    if b"SV_DispatchThreadID".as_slice() == name {
        return Some(SystemValue::DispatchThreadId);
    }
    if b"SV_GroupID".as_slice() == name {
        return Some(SystemValue::GroupId);
    }
    if b"SV_GroupThreadID".as_slice() == name {
        return Some(SystemValue::GroupThreadId);
    }
    if b"SV_GroupIndex".as_slice() == name {
        return Some(SystemValue::GroupIndex);
    }
    None
}

fn is_system_type(value: SystemValue, of: TypeTree) -> bool
    ensures { result ≡ t.is_system_type value of }
{
    match value {
        SystemValue::DispatchThreadId | SystemValue::GroupId | SystemValue::GroupThreadId => {
            is_uint_up_to_3(of)
        }
        SystemValue::GroupIndex => matches!(of, TypeTree::Scalar { of: Scalar::Uint }),
    }
}

fn is_read(direction: Option<Directed>) -> bool
    ensures { result ≡ t.is_read direction }
{
    match direction {
        Some(directed) => matches!(directed.direction, Direction::In),
        None => true,
    }
}

fn system_of_type(of: TypedParameterType, value: SystemValue) -> Option<SystemValue>
    ensures { result ≡ t.system_of_type of (Some value) }
{
    match of {
        TypedParameterType::Value { of } => {
            if is_system_type(value, of) {
                Some(value)
            } else {
                None
            }
        }
        TypedParameterType::Object { .. } => None,
    }
}

/// The system value that a parameter of an entry function takes.
pub fn system_of(p: &TypedParameter) -> Option<SystemValue>
    ensures { result ≡ t.system_of p.now }
{
    if !is_read(p.direction) {
        return None;
    }
    let name = p.semantic.as_ref()?;
    system_of_type(p.of, system_named(name.name.as_slice())?)
}
