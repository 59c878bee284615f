//! Statements and their bodies. They nest as deep as `depth` says, so that neither reading nor dropping a tree can overflow the stack.
ghost use Rattle.std.specs.Prelude.{◌≡◌};
ghost use Rattle.wg_grammar.specs.Reading.{many};
ghost use Rattle.wg_grammar.specs.Productions.{of};
ghost use Rattle.wg_tokens.specs.Classes.{class};
ghost use Rattle.wg_tree.specs.ReadsStmt as reads;
ghost use Rattle.wg_cursor.specs.IsReading.{IsReading};
ghost use Rattle.wg_declarations.specs.PartReads.{headed};
ghost use Rattle.wg_tree.specs.GrammarStmt as grammar;

use crate::stmt::{basic, condition, header};
use sqlite_items::{Boxed, Items};
use std::alloc::Global;
use wg_cursor::symbols::*;
use wg_cursor::words::*;
use wg_cursor::{Cursor, Halt, fitted, read_by_turns};
use wg_declarations::attributes;
use wg_tokens::{Class, Keyword};
use wg_tree::{Attribute, Stmt};
use wg_words::Place;

/// The classes with which a statement with a body begins.
const HEAD_STARTS: [Class; 4] = [LEFT_BRACKET, IF, WHILE, FOR];

/// The classes with which a statement begins.
const STMT_STARTS: [Class; 51] = [
    LEFT_BRACE,
    LEFT_BRACKET,
    IF,
    WHILE,
    FOR,
    SEMICOLON,
    CONST,
    MINUS,
    PLUS,
    NOT,
    TILDE,
    NUMBER,
    ZERO,
    TRUE,
    FALSE,
    NAME,
    BOOL,
    BOOL2,
    BOOL3,
    BOOL4,
    INT,
    INT2,
    INT3,
    INT4,
    UINT,
    UINT2,
    UINT3,
    UINT4,
    INT16,
    UINT16,
    INT64,
    UINT64,
    LEFT_PAREN,
    INCREMENT,
    DECREMENT,
    DISPATCH_NODE_INPUT_RECORD,
    RW_DISPATCH_NODE_INPUT_RECORD,
    GROUP_NODE_INPUT_RECORDS,
    RW_GROUP_NODE_INPUT_RECORDS,
    THREAD_NODE_INPUT_RECORD,
    RW_THREAD_NODE_INPUT_RECORD,
    NODE_OUTPUT,
    NODE_OUTPUT_ARRAY,
    THREAD_NODE_OUTPUT_RECORDS,
    GROUP_NODE_OUTPUT_RECORDS,
    EMPTY_NODE_INPUT,
    EMPTY_NODE_OUTPUT,
    EMPTY_NODE_OUTPUT_ARRAY,
    BREAK,
    CONTINUE,
    RETURN,
];

/// A block, where statements may be `depth` deeper and expressions `room`.
#[cycle(stmt)]
#[tactic(auto, using(crate::proofs::Bodies::block_below, crate::proofs::Bodies::no_block))]
pub fn block(
    alloc: Global,
    cursor: &mut Cursor<'_>,
    room: u32,
    depth: u32,
) -> Result<(Place, Items<Stmt>), Halt>
    ensures { IsReading ((reads.below_at room depth).block cursor.old) result cursor.new }
{
    if depth == 0 {
        return Err(cursor.too_deep(&[LEFT_BRACE]));
    }
    let place = cursor.mark(LEFT_BRACE)?;
    let body = stmts(alloc, cursor, room, depth - 1)?;
    cursor.mark(RIGHT_BRACE)?;
    Ok((place, body))
}

#[cycle(stmt)]
fn stmts(alloc: Global, cursor: &mut Cursor<'_>, room: u32, depth: u32) -> Result<Items<Stmt>, Halt>
    ensures { IsReading (many (of class reads.stmt_starts) (reads.read_stmt room (reads.below_at room depth)) cursor.old) result cursor.new }
{
    read_by_turns::<Stmt>();
    let mut found = Vec::new(alloc);
    for _turn in 0..cursor.left() {
        if !cursor.sees(&STMT_STARTS) {
            return Ok(fitted(found));
        }
        found.push(stmt(alloc, cursor, room, depth)?)?;
    }
    Ok(fitted(found))
}

#[cycle(stmt)]
fn stmt(alloc: Global, cursor: &mut Cursor<'_>, room: u32, depth: u32) -> Result<Stmt, Halt>
    ensures { IsReading (reads.read_stmt room (reads.below_at room depth) cursor.old) result cursor.new }
{
    if cursor.sees(&[LEFT_BRACE]) {
        let (place, body) = block(alloc, cursor, room, depth)?;
        Ok(Stmt::Block { place, body })
    } else {
        unbraced(alloc, cursor, room, depth)
    }
}

/// A statement that is the body of another, one deeper.
#[cycle(stmt)]
#[tactic(auto, using(crate::proofs::Bodies::body_block, crate::proofs::Bodies::body_unbraced, crate::proofs::Bodies::no_body))]
fn body(alloc: Global, cursor: &mut Cursor<'_>, room: u32, depth: u32) -> Result<Stmt, Halt>
    ensures { IsReading ((reads.below_at room depth).body cursor.old) result cursor.new }
{
    if depth == 0 {
        return Err(cursor.too_deep(&STMT_STARTS));
    }
    if cursor.sees(&[LEFT_BRACE]) {
        let (place, body) = block(alloc, cursor, room, depth)?;
        return Ok(Stmt::Block { place, body });
    }
    unbraced(alloc, cursor, room, depth - 1)
}

/// A statement that is no block.
#[cycle(stmt)]
fn unbraced(alloc: Global, cursor: &mut Cursor<'_>, room: u32, depth: u32) -> Result<Stmt, Halt>
    ensures { IsReading (reads.read_unbraced room (reads.below_at room depth).body cursor.old) result cursor.new }
{
    if !cursor.sees(&HEAD_STARTS) {
        return basic(alloc, cursor, room);
    }
    let attributes = attributes(alloc, cursor, room)?;
    if cursor.sees(&[IF]) {
        if_stmt(alloc, cursor, room, depth, attributes)
    } else if cursor.sees(&[WHILE]) {
        while_stmt(alloc, cursor, room, depth, attributes)
    } else {
        for_stmt(alloc, cursor, room, depth, attributes)
    }
}

/// An `else` belongs to the nearest `if`: to this one, where one follows its first branch.
#[cycle(stmt)]
fn if_stmt(
    alloc: Global,
    cursor: &mut Cursor<'_>,
    room: u32,
    depth: u32,
    attributes: Items<Attribute>,
) -> Result<Stmt, Halt>
    ensures { IsReading (headed room (reads.below_at room depth).body attributes grammar.if_head_part cursor.old) result cursor.new }
{
    let place = cursor.word(Keyword::If)?;
    let test = condition(alloc, cursor, room)?;
    let then = Boxed::new(alloc, body(alloc, cursor, room, depth)?)?;
    if !cursor.sees(&[ELSE]) {
        return Ok(Stmt::If {
            attributes,
            place,
            test,
            then,
            other: None,
        });
    }
    cursor.word(Keyword::Else)?;
    let other = Boxed::new(alloc, body(alloc, cursor, room, depth)?)?;
    Ok(Stmt::If {
        attributes,
        place,
        test,
        then,
        other: Some(other),
    })
}

#[cycle(stmt)]
fn while_stmt(
    alloc: Global,
    cursor: &mut Cursor<'_>,
    room: u32,
    depth: u32,
    attributes: Items<Attribute>,
) -> Result<Stmt, Halt>
    ensures { IsReading (headed room (reads.below_at room depth).body attributes grammar.while_head_part cursor.old) result cursor.new }
{
    let place = cursor.word(Keyword::While)?;
    let test = condition(alloc, cursor, room)?;
    let body = Boxed::new(alloc, body(alloc, cursor, room, depth)?)?;
    Ok(Stmt::While {
        attributes,
        place,
        test,
        body,
    })
}

#[cycle(stmt)]
fn for_stmt(
    alloc: Global,
    cursor: &mut Cursor<'_>,
    room: u32,
    depth: u32,
    attributes: Items<Attribute>,
) -> Result<Stmt, Halt>
    ensures { IsReading (headed room (reads.below_at room depth).body attributes grammar.for_head_part cursor.old) result cursor.new }
{
    let place = cursor.word(Keyword::For)?;
    let header = Boxed::new(alloc, header(alloc, cursor, room)?)?;
    let body = Boxed::new(alloc, body(alloc, cursor, room, depth)?)?;
    Ok(Stmt::For {
        attributes,
        place,
        header,
        body,
    })
}
