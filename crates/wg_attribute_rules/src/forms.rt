//! The arguments that an attribute may have at a position where it stands.
ghost use Rattle.std.specs.Prelude.{◌≡◌, ◌≤◌, ◌*◌, nat_le};
ghost use Rattle.wg_typing.specs.AttributeArguments as g;
ghost use Rattle.wg_typing.specs.Maybe.{where_true};
ghost use Rattle.wg_typing.specs.AttributeRange as r;
ghost use Rattle.std.specs.Option.{option_copied};
ghost use Rattle.wg_attribute_rules.specs.Positions.{own_of, position_of};

use crate::arguments::{is_id_name, is_node_text, is_number, is_number_between};
use crate::positions::{Own, Position};
use wg_attribute_arguments::{count_in, first_named, groups_in, kind_of, mode_named};
use wg_typed::{ArgumentValue, TypedArgument, TypedParameter};
use wg_typing::{AttributeName, Mode, ParameterKind};

/// The product of three numbers of which each is at least 1, where it is at most 1,024.
fn product(arguments: &[TypedArgument]) -> Option<u64>
    ensures { result ≡ g.product arguments.now }
{
    let [x, y, z] = arguments else {
        return None;
    };
    let (x, y, z) = (
        count_in(&x.value)?,
        count_in(&y.value)?,
        count_in(&z.value)?,
    );
    bounded_product(x, y, z)
}

/// The product of three numbers of at least 1, where it is at most 1,024.
fn bounded_product(x: u64, y: u64, z: u64) -> Option<u64>
    requires { (1 ≤ x) × (1 ≤ y) × (1 ≤ z) }
    ensures { result ≡ where_true (nat_le (x * y * z) 1024) (x * y * z) }
{
    if x > 1024 || y > 1024 || z > 1024 {
        return None;
    }
    let product = x * y * z;
    if product <= 1024 { Some(product) } else { None }
}

/// The product of three numbers of groups.
fn grid_product(arguments: &[TypedArgument]) -> Option<u64>
    ensures { result ≡ r.grid_product arguments.now }
{
    let [x, y, z] = arguments else {
        return None;
    };
    let (x, y, z) = (
        groups_in(&x.value)?,
        groups_in(&y.value)?,
        groups_in(&z.value)?,
    );
    Some(x * y * z)
}

fn is_below(limit: u64, n: Option<u64>) -> bool
    ensures { result ≡ r.is_below limit n }
{
    match n {
        Some(n) => n < limit,
        None => false,
    }
}

/// The threads of a group: 1 for thread launch.
fn are_threads(mode: Option<Mode>, n: Option<u64>) -> bool
    ensures { result ≡ r.are_threads mode n }
{
    match n {
        Some(n) => match mode {
            Some(Mode::Thread) => n == 1,
            Some(Mode::Broadcasting | Mode::Coalescing) | None => true,
        },
        None => false,
    }
}

fn is_one_between(low: u64, high: u64, arguments: &[TypedArgument]) -> bool
    ensures { result ≡ r.is_one_between low high arguments.now }
{
    match arguments {
        [a] => is_number_between(low, high, &a.value),
        _ => false,
    }
}

/// The string `node` alone.
pub fn is_one_node_text(arguments: &[TypedArgument]) -> bool
    ensures { result ≡ g.is_one_text "node" arguments.now }
{
    match arguments {
        [a] => is_node_text(&a.value),
        _ => false,
    }
}

/// A node's name, and an index up to the greatest.
fn is_id(greatest: u64, arguments: &[TypedArgument]) -> bool
    ensures { result ≡ r.is_id greatest arguments.now }
{
    match arguments {
        [name] => is_id_name(&name.value),
        [name, index] => { is_id_name(&name.value) & is_number_between(0, greatest, &index.value) }
        _ => false,
    }
}

/// No argument, or one number.
fn is_hint(arguments: &[TypedArgument]) -> bool
    ensures { result ≡ r.is_hint arguments.now }
{
    match arguments {
        [] => true,
        [a] => is_number(&a.value),
        _ => false,
    }
}

/// An output that has a bound of its own.
fn bounds_itself(p: Option<&TypedParameter>) -> bool
    ensures { result ≡ r.bounds_itself (option_copied p.entry) }
{
    match p {
        Some(p) => {
            matches!(kind_of(p.of), ParameterKind::Output { .. })
                && first_named(b"MaxRecords", p.attributes.as_slice()).is_some()
        }
        None => false,
    }
}

/// The name of another output that has a bound of its own.
fn names_partner(own: Own<'_>, value: &ArgumentValue) -> bool
    ensures { result ≡ r.names_partner (own_of own.entry) value.now }
{
    match value {
        ArgumentValue::Parameter { parameter } => {
            *parameter as usize != own.number
                && bounds_itself(own.parameters.get(*parameter as usize))
        }
        ArgumentValue::Number { .. } | ArgumentValue::Text { .. } | ArgumentValue::Other => false,
    }
}

fn is_shared_with(own: Own<'_>, arguments: &[TypedArgument]) -> bool
    ensures { result ≡ r.is_shared_with (own_of own.entry) arguments.now }
{
    match arguments {
        [a] => names_partner(own, &a.value),
        _ => false,
    }
}

fn is_partner(position: Position<'_>, arguments: &[TypedArgument]) -> bool
    ensures { result ≡ r.is_partner (position_of position.entry) arguments.now }
{
    match position {
        Position::Output { own } | Position::OutputArray { own } => is_shared_with(own, arguments),
        Position::Struct
        | Position::Node { .. }
        | Position::Plain
        | Position::Input { .. }
        | Position::Value
        | Position::Branch => false,
    }
}

/// The mode that counts for the attributes of a node.
fn mode_at(position: Position<'_>) -> Option<Mode>
    ensures { result ≡ r.mode_at (position_of position.entry) }
{
    match position {
        Position::Node { mode } => mode,
        Position::Struct
        | Position::Plain
        | Position::Input { .. }
        | Position::Output { .. }
        | Position::OutputArray { .. }
        | Position::Value
        | Position::Branch => None,
    }
}

/// The greatest index of a `NodeID`: on an output array it is 0.
fn greatest_index(position: Position<'_>) -> u64
    ensures { result ≡ r.greatest_index (position_of position.entry) }
{
    match position {
        Position::OutputArray { .. } => 0,
        Position::Struct
        | Position::Node { .. }
        | Position::Plain
        | Position::Input { .. }
        | Position::Output { .. }
        | Position::Value
        | Position::Branch => 255,
    }
}

/// Whether an attribute that stands at a position has arguments that it may have there.
pub fn has_form(position: Position<'_>, name: AttributeName, arguments: &[TypedArgument]) -> bool
    ensures { result ≡ r.has_form (position_of position.entry) name arguments.now }
{
    match name {
        AttributeName::Shader => is_one_node_text(arguments),
        AttributeName::NodeLaunch => mode_named(arguments).is_some(),
        AttributeName::NumThreads => are_threads(mode_at(position), product(arguments)),
        AttributeName::DispatchGrid | AttributeName::MaxDispatchGrid => {
            is_below(16_777_216, grid_product(arguments))
        }
        AttributeName::NodeId => is_id(greatest_index(position), arguments),
        AttributeName::ProgramEntry
        | AttributeName::AllowSparseNodes
        | AttributeName::TrackSharing => arguments.is_empty(),
        AttributeName::MaxRecursionDepth => is_one_between(1, 31, arguments),
        AttributeName::MaxRecords | AttributeName::NodeArraySize => {
            is_one_between(1, 256, arguments)
        }
        AttributeName::MaxRecordsSharedWith => is_partner(position, arguments),
        AttributeName::Hint => is_hint(arguments),
    }
}
