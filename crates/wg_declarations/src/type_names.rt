//! Types and objects.
ghost use Rattle.std.specs.Prelude.{◌≡◌, ◌++◌};
ghost use Rattle.wg_grammar.specs.Productions.{of};
ghost use Rattle.wg_grammar.specs.Reading as reading;
ghost use Rattle.wg_tokens.specs.Classes.{class};
ghost use Rattle.wg_tree.specs.GrammarExpr as exprs;
ghost use Rattle.wg_tree.specs.GrammarStmt as grammar;
ghost use Rattle.wg_cursor.specs.ClassSets.{numbers};
ghost use Rattle.wg_cursor.specs.IsReading.{IsReading};
ghost use Rattle.wg_declarations.specs.PartReads.{item_part_read};

use std::alloc::Global;
use wg_cursor::symbols::*;
use wg_cursor::words::*;
use wg_cursor::{Cursor, Halt, at_class, class};
use wg_expressions::{VALUE_TYPES, value_type};
use wg_tokens::{Class, Token};
use wg_tree::{ObjectType, ObjectWord, TypeName};

/// The classes with which a type begins.
pub const TYPES: [Class; 17] = [
    NAME, BOOL, BOOL2, BOOL3, BOOL4, INT, INT2, INT3, INT4, UINT, UINT2, UINT3, UINT4, INT16,
    UINT16, INT64, UINT64,
];

/// The objects of parameters that have a record type.
const RECORD_OBJECTS: [Class; 8] = [
    DISPATCH_NODE_INPUT_RECORD,
    RW_DISPATCH_NODE_INPUT_RECORD,
    GROUP_NODE_INPUT_RECORDS,
    RW_GROUP_NODE_INPUT_RECORDS,
    THREAD_NODE_INPUT_RECORD,
    RW_THREAD_NODE_INPUT_RECORD,
    NODE_OUTPUT,
    NODE_OUTPUT_ARRAY,
];

/// The objects of variables that have a record type.
const TYPED_OBJECTS: [Class; 10] = [
    DISPATCH_NODE_INPUT_RECORD,
    RW_DISPATCH_NODE_INPUT_RECORD,
    GROUP_NODE_INPUT_RECORDS,
    RW_GROUP_NODE_INPUT_RECORDS,
    THREAD_NODE_INPUT_RECORD,
    RW_THREAD_NODE_INPUT_RECORD,
    NODE_OUTPUT,
    NODE_OUTPUT_ARRAY,
    THREAD_NODE_OUTPUT_RECORDS,
    GROUP_NODE_OUTPUT_RECORDS,
];

/// The objects of variables.
pub const OBJECTS: [Class; 13] = [
    DISPATCH_NODE_INPUT_RECORD,
    RW_DISPATCH_NODE_INPUT_RECORD,
    GROUP_NODE_INPUT_RECORDS,
    RW_GROUP_NODE_INPUT_RECORDS,
    THREAD_NODE_INPUT_RECORD,
    RW_THREAD_NODE_INPUT_RECORD,
    NODE_OUTPUT,
    NODE_OUTPUT_ARRAY,
    THREAD_NODE_OUTPUT_RECORDS,
    GROUP_NODE_OUTPUT_RECORDS,
    EMPTY_NODE_INPUT,
    EMPTY_NODE_OUTPUT,
    EMPTY_NODE_OUTPUT_ARRAY,
];

/// The objects without a record type.
const EMPTY_OBJECTS: [Class; 3] = [EMPTY_NODE_INPUT, EMPTY_NODE_OUTPUT, EMPTY_NODE_OUTPUT_ARRAY];

fn struct_type(alloc: Global, cursor: &mut Cursor<'_>) -> Result<TypeName, Halt>
    ensures { IsReading (item_part_read 0 grammar.struct_type cursor.old) result cursor.new }
{
    let name = cursor.name(alloc)?;
    Ok(TypeName::Struct { name })
}

fn type_of_values(cursor: &mut Cursor<'_>) -> Result<TypeName, Halt>
    ensures { IsReading (item_part_read 0 grammar.type_of_values cursor.old) result cursor.new }
{
    let token = cursor.take(&VALUE_TYPES)?;
    Ok(TypeName::Value {
        place: token.place,
        of: value_type(token),
    })
}

/// A name of a type, or a type of values.
pub fn a_type(alloc: Global, cursor: &mut Cursor<'_>) -> Result<TypeName, Halt>
    ensures { IsReading (reading.take_if (of class grammar.type_classes) grammar.type_of cursor.old) result cursor.new }
{
    if cursor.sees(&[NAME]) {
        struct_type(alloc, cursor)
    } else {
        type_of_values(cursor)
    }
}

/// A type between `<` and `>`.
pub fn type_argument(alloc: Global, cursor: &mut Cursor<'_>) -> Result<TypeName, Halt>
    ensures { IsReading (item_part_read 0 grammar.type_argument cursor.old) result cursor.new }
{
    cursor.mark(LESS)?;
    let of = a_type(alloc, cursor)?;
    cursor.mark(GREATER)?;
    Ok(of)
}

const OBJECT_WORDS: [(Class, ObjectWord); 13] = [
    (
        DISPATCH_NODE_INPUT_RECORD,
        ObjectWord::DispatchNodeInputRecord,
    ),
    (
        RW_DISPATCH_NODE_INPUT_RECORD,
        ObjectWord::RwDispatchNodeInputRecord,
    ),
    (GROUP_NODE_INPUT_RECORDS, ObjectWord::GroupNodeInputRecords),
    (
        RW_GROUP_NODE_INPUT_RECORDS,
        ObjectWord::RwGroupNodeInputRecords,
    ),
    (THREAD_NODE_INPUT_RECORD, ObjectWord::ThreadNodeInputRecord),
    (
        RW_THREAD_NODE_INPUT_RECORD,
        ObjectWord::RwThreadNodeInputRecord,
    ),
    (NODE_OUTPUT, ObjectWord::NodeOutput),
    (NODE_OUTPUT_ARRAY, ObjectWord::NodeOutputArray),
    (
        THREAD_NODE_OUTPUT_RECORDS,
        ObjectWord::ThreadNodeOutputRecords,
    ),
    (
        GROUP_NODE_OUTPUT_RECORDS,
        ObjectWord::GroupNodeOutputRecords,
    ),
    (EMPTY_NODE_INPUT, ObjectWord::EmptyNodeInput),
    (EMPTY_NODE_OUTPUT, ObjectWord::EmptyNodeOutput),
    (EMPTY_NODE_OUTPUT_ARRAY, ObjectWord::EmptyNodeOutputArray),
];

fn object_word(token: &Token) -> ObjectWord
    ensures { result ≡ grammar.object_word_of token.now }
{
    at_class(&OBJECT_WORDS, ObjectWord::EmptyNodeInput, class(token))
}

/// One of these objects, and its record type.
fn typed_object(alloc: Global, cursor: &mut Cursor<'_>, words: &[Class]) -> Result<ObjectType, Halt>
    ensures { IsReading (item_part_read 0 (grammar.typed_object (numbers words.now)) cursor.old) result cursor.new }
{
    let token = cursor.take(words)?;
    let record_type = type_argument(alloc, cursor)?;
    Ok(ObjectType {
        place: token.place,
        word: object_word(token),
        record_type: Some(record_type),
    })
}

fn empty_object(cursor: &mut Cursor<'_>) -> Result<ObjectType, Halt>
    ensures { IsReading (item_part_read 0 grammar.empty_object cursor.old) result cursor.new }
{
    let token = cursor.take(&EMPTY_OBJECTS)?;
    Ok(ObjectType {
        place: token.place,
        word: object_word(token),
        record_type: None,
    })
}

/// The object of a parameter.
pub fn parameter_object(alloc: Global, cursor: &mut Cursor<'_>) -> Result<ObjectType, Halt>
    ensures { IsReading (item_part_read 0 (grammar.object grammar.record_objects) cursor.old) result cursor.new }
{
    if cursor.sees(&RECORD_OBJECTS) {
        typed_object(alloc, cursor, &RECORD_OBJECTS)
    } else {
        empty_object(cursor)
    }
}

/// The object of a variable.
pub fn handle_object(alloc: Global, cursor: &mut Cursor<'_>) -> Result<ObjectType, Halt>
    ensures { IsReading (item_part_read 0 (grammar.object (grammar.record_objects ++ grammar.handle_objects)) cursor.old) result cursor.new }
{
    if cursor.sees(&TYPED_OBJECTS) {
        typed_object(alloc, cursor, &TYPED_OBJECTS)
    } else {
        empty_object(cursor)
    }
}
