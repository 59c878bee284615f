//! Declarations of a text.
ghost use Rattle.wg_tree.specs.GrammarItem as grammar;
ghost use Rattle.wg_tree.specs.ReadsItem.{read_text};
ghost use Rattle.wg_cursor.specs.IsReading.{IsReading};
ghost use Rattle.wg_declarations.specs.PartReads.{item_part_read};

use crate::parameter::{parameters, semantic};
use sqlite_items::Items;
use std::alloc::Global;
use wg_cursor::symbols::*;
use wg_cursor::words::*;
use wg_cursor::{Cursor, ElementReader, Halt, class, joined, many};
use wg_declarations::{TYPES, a_type, attributes, size, type_argument};
use wg_expressions::{ExprKind, expr};
use wg_statements::block;
use wg_tokens::{Class, Keyword};
use wg_tree::{BufferType, Field, Item, Named, ResultType, Source};
use wg_words::Place;

const RAW_BUFFERS: [Class; 2] = [RW_BYTE_ADDRESS_BUFFER, BYTE_ADDRESS_BUFFER];

const STRUCTURED_BUFFERS: [Class; 2] = [RW_STRUCTURED_BUFFER, STRUCTURED_BUFFER];

/// The classes with which the declaration of a buffer begins.
const BUFFERS: [Class; 5] = [
    GLOBALLY_COHERENT,
    RW_BYTE_ADDRESS_BUFFER,
    BYTE_ADDRESS_BUFFER,
    RW_STRUCTURED_BUFFER,
    STRUCTURED_BUFFER,
];

/// The classes with which a declaration of a text begins.
const ITEM_STARTS: [Class; 27] = [
    STRUCT,
    GLOBALLY_COHERENT,
    RW_BYTE_ADDRESS_BUFFER,
    BYTE_ADDRESS_BUFFER,
    RW_STRUCTURED_BUFFER,
    STRUCTURED_BUFFER,
    GROUP_SHARED,
    STATIC,
    LEFT_BRACKET,
    VOID,
    NAME,
    BOOL,
    BOOL2,
    BOOL3,
    BOOL4,
    INT,
    INT2,
    INT3,
    INT4,
    UINT,
    UINT2,
    UINT3,
    UINT4,
    INT16,
    UINT16,
    INT64,
    UINT64,
];

#[derive(Drop)]
struct AField {
    room: u32,
}

impl ElementReader for AField {
    ghost use Rattle.wg_tree.specs.GrammarItem as grammar;
    ghost use Rattle.wg_declarations.specs.PartReads.{item_part_read};

    type Tree = Field;

    ghost reads = { λ rule. item_part_read rule.room grammar.field };

    fn read(&self, alloc: Global, cursor: &mut Cursor<'_>) -> Result<Field, Halt> {
        let of = a_type(alloc, cursor)?;
        let name = cursor.name(alloc)?;
        let size = size(alloc, cursor, self.room)?;
        let semantic = semantic(alloc, cursor)?;
        cursor.mark(SEMICOLON)?;
        Ok(Field {
            of,
            name,
            size,
            semantic,
        })
    }
}

fn struct_item(alloc: Global, cursor: &mut Cursor<'_>, room: u32) -> Result<Item, Halt>
    ensures { IsReading (item_part_read room grammar.struct_item cursor.old) result cursor.new }
{
    let place = cursor.word(Keyword::Struct)?;
    let attributes = attributes(alloc, cursor, room)?;
    let name = cursor.name(alloc)?;
    cursor.mark(LEFT_BRACE)?;
    let fields = many(alloc, cursor, &TYPES, &AField { room })?;
    cursor.mark(RIGHT_BRACE)?;
    cursor.mark(SEMICOLON)?;
    Ok(Item::Struct {
        place,
        attributes,
        name,
        fields,
    })
}

fn buffer_type(alloc: Global, cursor: &mut Cursor<'_>) -> Result<BufferType, Halt>
    ensures { IsReading (item_part_read 0 grammar.a_buffer_type cursor.old) result cursor.new }
{
    if cursor.sees(&RAW_BUFFERS) {
        let token = cursor.take(&RAW_BUFFERS)?;
        return Ok(BufferType::Raw {
            place: token.place,
            writable: class(token).number() == RW_BYTE_ADDRESS_BUFFER.number(),
        });
    }
    let token = cursor.take(&STRUCTURED_BUFFERS)?;
    let of = type_argument(alloc, cursor)?;
    Ok(BufferType::Structured {
        place: token.place,
        writable: class(token).number() == RW_STRUCTURED_BUFFER.number(),
        of,
    })
}

#[derive(Drop)]
struct NextName;

impl ElementReader for NextName {
    ghost use Rattle.wg_declarations.specs.PartReads.{item_part_read};
    ghost use Rattle.wg_tree.specs.GrammarItem as grammar;

    type Tree = Named;

    ghost reads = { λ rule. item_part_read 0 grammar.next_name };

    fn read(&self, alloc: Global, cursor: &mut Cursor<'_>) -> Result<Named, Halt> {
        cursor.mark(COMMA)?;
        cursor.name(alloc)
    }
}

fn some_names(alloc: Global, cursor: &mut Cursor<'_>) -> Result<Items<Named>, Halt>
    ensures { IsReading (item_part_read 0 grammar.some_names cursor.old) result cursor.new }
{
    let first = cursor.name(alloc)?;
    let rest = many(alloc, cursor, &[COMMA], &NextName)?;
    Ok(joined(alloc, first, rest)?)
}

/// The registers of a buffer, if it names any.
fn registers(alloc: Global, cursor: &mut Cursor<'_>) -> Result<Items<Named>, Halt>
    ensures { IsReading (item_part_read 0 grammar.registers cursor.old) result cursor.new }
{
    if !cursor.sees(&[COLON]) {
        return Ok(Items::new(alloc));
    }
    cursor.mark(COLON)?;
    cursor.word(Keyword::Register)?;
    cursor.mark(LEFT_PAREN)?;
    let names = some_names(alloc, cursor)?;
    cursor.mark(RIGHT_PAREN)?;
    Ok(names)
}

fn coherent(cursor: &mut Cursor<'_>) -> Result<Option<Place>, Halt>
    ensures { IsReading (item_part_read 0 grammar.coherent cursor.old) result cursor.new }
{
    if !cursor.sees(&[GLOBALLY_COHERENT]) {
        return Ok(None);
    }
    Ok(Some(cursor.word(Keyword::GloballyCoherent)?))
}

fn buffer_item(alloc: Global, cursor: &mut Cursor<'_>) -> Result<Item, Halt>
    ensures { IsReading (item_part_read 0 grammar.buffer_item cursor.old) result cursor.new }
{
    let coherent = coherent(cursor)?;
    let of = buffer_type(alloc, cursor)?;
    let name = cursor.name(alloc)?;
    let registers = registers(alloc, cursor)?;
    cursor.mark(SEMICOLON)?;
    Ok(Item::Buffer {
        coherent,
        of,
        name,
        registers,
    })
}

fn shared_item(alloc: Global, cursor: &mut Cursor<'_>, room: u32) -> Result<Item, Halt>
    ensures { IsReading (item_part_read room grammar.shared_item cursor.old) result cursor.new }
{
    let place = cursor.word(Keyword::GroupShared)?;
    let of = a_type(alloc, cursor)?;
    let name = cursor.name(alloc)?;
    let size = size(alloc, cursor, room)?;
    cursor.mark(SEMICOLON)?;
    Ok(Item::Shared {
        place,
        of,
        name,
        size,
    })
}

fn constant_item(alloc: Global, cursor: &mut Cursor<'_>, room: u32) -> Result<Item, Halt>
    ensures { IsReading (item_part_read room grammar.constant_item cursor.old) result cursor.new }
{
    let place = cursor.word(Keyword::Static)?;
    cursor.word(Keyword::Const)?;
    let of = a_type(alloc, cursor)?;
    let name = cursor.name(alloc)?;
    cursor.mark(ASSIGN)?;
    let value = expr(alloc, cursor, ExprKind::Constant, room)?;
    cursor.mark(SEMICOLON)?;
    Ok(Item::Constant {
        place,
        of,
        name,
        value,
    })
}

fn result_type(alloc: Global, cursor: &mut Cursor<'_>) -> Result<ResultType, Halt>
    ensures { IsReading (item_part_read 0 grammar.a_result cursor.old) result cursor.new }
{
    if cursor.sees(&[VOID]) {
        let place = cursor.word(Keyword::Void)?;
        return Ok(ResultType::Void { place });
    }
    let of = a_type(alloc, cursor)?;
    Ok(ResultType::Value { of })
}

fn function_item(alloc: Global, cursor: &mut Cursor<'_>, room: u32) -> Result<Item, Halt>
    ensures { IsReading (item_part_read room grammar.function_item cursor.old) result cursor.new }
{
    let attributes = attributes(alloc, cursor, room)?;
    let result = result_type(alloc, cursor)?;
    let name = cursor.name(alloc)?;
    let parameters = parameters(alloc, cursor, room)?;
    let (place, body) = block(alloc, cursor, room, room)?;
    Ok(Item::Function {
        attributes,
        result,
        name,
        parameters,
        place,
        body,
    })
}

#[derive(Drop)]
struct AnItem {
    room: u32,
}

impl ElementReader for AnItem {
    ghost use Rattle.wg_tree.specs.GrammarItem as grammar;
    ghost use Rattle.wg_declarations.specs.PartReads.{item_part_read};

    type Tree = Item;

    ghost reads = { λ rule. item_part_read rule.room grammar.an_item };

    fn read(&self, alloc: Global, cursor: &mut Cursor<'_>) -> Result<Item, Halt> {
        if cursor.sees(&[STRUCT]) {
            struct_item(alloc, cursor, self.room)
        } else if cursor.sees(&BUFFERS) {
            buffer_item(alloc, cursor)
        } else if cursor.sees(&[GROUP_SHARED]) {
            shared_item(alloc, cursor, self.room)
        } else if cursor.sees(&[STATIC]) {
            constant_item(alloc, cursor, self.room)
        } else {
            function_item(alloc, cursor, self.room)
        }
    }
}

/// Declarations, as long as the next token begins one.
pub(crate) fn text(alloc: Global, cursor: &mut Cursor<'_>, room: u32) -> Result<Source, Halt>
    ensures { IsReading (read_text room cursor.old) result cursor.new }
{
    let items = many(alloc, cursor, &ITEM_STARTS, &AnItem { room })?;
    Ok(Source { items })
}
