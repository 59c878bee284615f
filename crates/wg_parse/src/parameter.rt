//! Parameters of functions.
ghost use Rattle.std.specs.Prelude.{◌≡◌};
ghost use Rattle.wg_tree.specs.GrammarItem as grammar;
ghost use Rattle.wg_cursor.specs.IsReading.{IsReading};
ghost use Rattle.wg_declarations.specs.PartReads.{item_part_read};

use sqlite_items::Items;
use std::alloc::Global;
use wg_cursor::symbols::*;
use wg_cursor::words::*;
use wg_cursor::{Cursor, ElementReader, Halt, at_class, class, joined, many};
use wg_declarations::{TYPES, a_type, attributes, parameter_object};
use wg_tokens::{Class, Token};
use wg_tree::{Directed, Direction, Named, Parameter, ParameterType};

const DIRECTIONS: [Class; 3] = [IN, OUT, IN_OUT];

const DIRECTION_WORDS: [(Class, Direction); 3] = [
    (IN, Direction::In),
    (OUT, Direction::Out),
    (IN_OUT, Direction::InOut),
];

/// The classes with which a parameter begins.
const PARAMETER_STARTS: [Class; 32] = [
    LEFT_BRACKET,
    IN,
    OUT,
    IN_OUT,
    NAME,
    BOOL,
    BOOL2,
    BOOL3,
    BOOL4,
    INT,
    INT2,
    INT3,
    INT4,
    UINT,
    UINT2,
    UINT3,
    UINT4,
    INT16,
    UINT16,
    INT64,
    UINT64,
    DISPATCH_NODE_INPUT_RECORD,
    RW_DISPATCH_NODE_INPUT_RECORD,
    GROUP_NODE_INPUT_RECORDS,
    RW_GROUP_NODE_INPUT_RECORDS,
    THREAD_NODE_INPUT_RECORD,
    RW_THREAD_NODE_INPUT_RECORD,
    NODE_OUTPUT,
    NODE_OUTPUT_ARRAY,
    EMPTY_NODE_INPUT,
    EMPTY_NODE_OUTPUT,
    EMPTY_NODE_OUTPUT_ARRAY,
];

/// The system value of a field or a parameter, if it names one.
pub(crate) fn semantic(alloc: Global, cursor: &mut Cursor<'_>) -> Result<Option<Named>, Halt>
    ensures { IsReading (item_part_read 0 grammar.semantic cursor.old) result cursor.new }
{
    if !cursor.sees(&[COLON]) {
        return Ok(None);
    }
    cursor.mark(COLON)?;
    Ok(Some(cursor.name(alloc)?))
}

fn directed(token: &Token) -> Directed
    ensures { result ≡ grammar.directed token.now }
{
    Directed {
        place: token.place,
        direction: at_class(&DIRECTION_WORDS, Direction::In, class(token)),
    }
}

#[tactic(auto, using(crate::proofs::Directions::with_direction))]
fn direction(cursor: &mut Cursor<'_>) -> Result<Option<Directed>, Halt>
    ensures { IsReading (item_part_read 0 grammar.some_direction cursor.old) result cursor.new }
{
    if !cursor.sees(&DIRECTIONS) {
        return Ok(None);
    }
    let token = cursor.take(&DIRECTIONS)?;
    Ok(Some(directed(token)))
}

fn parameter_type(alloc: Global, cursor: &mut Cursor<'_>) -> Result<ParameterType, Halt>
    ensures { IsReading (item_part_read 0 grammar.a_parameter_type cursor.old) result cursor.new }
{
    if cursor.sees(&TYPES) {
        let of = a_type(alloc, cursor)?;
        return Ok(ParameterType::Value { of });
    }
    let of = parameter_object(alloc, cursor)?;
    Ok(ParameterType::Object { of })
}

fn parameter(alloc: Global, cursor: &mut Cursor<'_>, room: u32) -> Result<Parameter, Halt>
    ensures { IsReading (item_part_read room grammar.a_parameter cursor.old) result cursor.new }
{
    let attributes = attributes(alloc, cursor, room)?;
    let direction = direction(cursor)?;
    let of = parameter_type(alloc, cursor)?;
    let name = cursor.name(alloc)?;
    let semantic = semantic(alloc, cursor)?;
    Ok(Parameter {
        attributes,
        direction,
        of,
        name,
        semantic,
    })
}

#[derive(Drop)]
struct NextParameter {
    room: u32,
}

impl ElementReader for NextParameter {
    ghost use Rattle.wg_declarations.specs.PartReads.{item_part_read};
    ghost use Rattle.wg_tree.specs.GrammarItem as grammar;

    type Tree = Parameter;

    ghost reads = { λ rule. item_part_read rule.room grammar.next_parameter };

    fn read(&self, alloc: Global, cursor: &mut Cursor<'_>) -> Result<Parameter, Halt> {
        cursor.mark(COMMA)?;
        parameter(alloc, cursor, self.room)
    }
}

fn some_parameters(
    alloc: Global,
    cursor: &mut Cursor<'_>,
    room: u32,
) -> Result<Items<Parameter>, Halt>
    ensures { IsReading (item_part_read room grammar.some_parameters cursor.old) result cursor.new }
{
    let first = parameter(alloc, cursor, room)?;
    let rest = many(alloc, cursor, &[COMMA], &NextParameter { room })?;
    Ok(joined(alloc, first, rest)?)
}

pub(crate) fn parameters(
    alloc: Global,
    cursor: &mut Cursor<'_>,
    room: u32,
) -> Result<Items<Parameter>, Halt>
    ensures { IsReading (item_part_read room grammar.parameters cursor.old) result cursor.new }
{
    cursor.mark(LEFT_PAREN)?;
    let parameters = if cursor.sees(&PARAMETER_STARTS) {
        some_parameters(alloc, cursor, room)?
    } else {
        Items::new(alloc)
    };
    cursor.mark(RIGHT_PAREN)?;
    Ok(parameters)
}
