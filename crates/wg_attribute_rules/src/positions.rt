ghost use Rattle.std.specs.Prelude.{◌≡◌};
ghost use Rattle.wg_typing.specs.AttributeNames as n;
ghost use Rattle.wg_attribute_rules.specs.Positions.{position_of};

use crate::names::name_of;
use wg_typed::{TypedAttribute, TypedParameter};
use wg_typing::{AttributeName, Mode};

/// A parameter of a node, by its number among all of them.
#[derive(Clone, Copy)]
pub struct Own<'a> {
    pub parameters: &'a [TypedParameter],
    pub number: usize,
}

/// Where an attribute stands. A mode is open where the node has none that counts.
#[derive(Clone, Copy)]
pub enum Position<'a> {
    Struct,
    Node { mode: Option<Mode> },
    Plain,
    Input { mode: Option<Mode> },
    Output { own: Own<'a> },
    OutputArray { own: Own<'a> },
    Value,
    Branch,
}

fn stands_on_node(name: AttributeName) -> bool
    ensures { result ≡ n.stands_on_node name }
{
    matches!(
        name,
        AttributeName::Shader
            | AttributeName::NodeLaunch
            | AttributeName::NumThreads
            | AttributeName::DispatchGrid
            | AttributeName::MaxDispatchGrid
            | AttributeName::NodeId
            | AttributeName::ProgramEntry
            | AttributeName::MaxRecursionDepth
    )
}

fn stands_on_output(name: AttributeName) -> bool
    ensures { result ≡ n.stands_on_output name }
{
    matches!(
        name,
        AttributeName::NodeId
            | AttributeName::MaxRecords
            | AttributeName::MaxRecordsSharedWith
            | AttributeName::AllowSparseNodes
    )
}

fn stands(position: Position<'_>, name: AttributeName) -> bool
    ensures { result ≡ n.stands (position_of position.entry) name }
{
    match position {
        Position::Struct => matches!(name, AttributeName::TrackSharing),
        Position::Node { .. } => stands_on_node(name),
        Position::Plain => matches!(name, AttributeName::Shader),
        Position::Input { .. } => matches!(name, AttributeName::MaxRecords),
        Position::Output { .. } => stands_on_output(name),
        Position::OutputArray { .. } => {
            matches!(name, AttributeName::NodeArraySize) | stands_on_output(name)
        }
        Position::Value => false,
        Position::Branch => matches!(name, AttributeName::Hint),
    }
}

/// The attribute, where it stands at its position.
pub fn standing(position: Position<'_>, a: &TypedAttribute) -> Option<AttributeName>
    ensures { result ≡ n.standing (position_of position.entry) a.now }
{
    let name = name_of(a)?;
    if stands(position, name) {
        Some(name)
    } else {
        None
    }
}
