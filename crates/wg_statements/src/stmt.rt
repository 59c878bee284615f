//! Statements without a body, and what stands before a body.
ghost use Rattle.wg_tree.specs.GrammarStmt as grammar;
ghost use Rattle.wg_tree.specs.ReadsStmt as reads;
ghost use Rattle.wg_grammar.specs.Productions.{reads as reads_part};
ghost use Rattle.wg_tokens.specs.Classes.{class};
ghost use Rattle.wg_cursor.specs.IsReading.{IsReading};
ghost use Rattle.wg_declarations.specs.PartReads.{stmt_part_read};

use sqlite_items::Boxed;
use std::alloc::Global;
use wg_cursor::symbols::*;
use wg_cursor::words::*;
use wg_cursor::{Cursor, Halt, closed};
use wg_declarations::{
    OBJECTS, STEP_STARTS, TYPES, a_step, const_declaration, declaration, handle_object, steps,
};
use wg_expressions::{ExprKind, expr};
use wg_tokens::{Class, Keyword};
use wg_tree::{Expr, Header, Start, Steps, Stmt};

/// The classes with which the start of a `for` begins.
const START_STARTS: [Class; 29] = [
    CONST, MINUS, PLUS, NOT, TILDE, NUMBER, ZERO, TRUE, FALSE, NAME, BOOL, BOOL2, BOOL3, BOOL4,
    INT, INT2, INT3, INT4, UINT, UINT2, UINT3, UINT4, INT16, UINT16, INT64, UINT64, LEFT_PAREN,
    INCREMENT, DECREMENT,
];

fn declared(alloc: Global, cursor: &mut Cursor<'_>, room: u32) -> Result<Stmt, Halt>
    ensures { IsReading (reads_part class reads.values_edges (reads.values_readers room) grammar.declared_stmt cursor.old) result cursor.new }
{
    let declaration = declaration(alloc, cursor, room)?;
    let declaration = Boxed::new(alloc, declaration)?;
    Ok(Stmt::Declare { declaration })
}

fn const_declared(alloc: Global, cursor: &mut Cursor<'_>, room: u32) -> Result<Stmt, Halt>
    ensures { IsReading (stmt_part_read room grammar.const_stmt cursor.old) result cursor.new }
{
    let declaration = const_declaration(alloc, cursor, room)?;
    let declaration = Boxed::new(alloc, declaration)?;
    Ok(Stmt::Declare { declaration })
}

/// A declaration or a step: a type and a name begin a declaration.
fn opening(alloc: Global, cursor: &mut Cursor<'_>, room: u32) -> Result<Stmt, Halt>
    ensures { IsReading (reads.read_hole room grammar.opening cursor.old) result cursor.new }
{
    if cursor.begins(&[&TYPES, &[NAME]]) {
        declared(alloc, cursor, room)
    } else {
        let step = a_step(alloc, cursor, room)?;
        Ok(Stmt::Step { step })
    }
}

fn starting(alloc: Global, cursor: &mut Cursor<'_>, room: u32) -> Result<Start, Halt>
    ensures { IsReading (reads.read_hole room grammar.starting cursor.old) result cursor.new }
{
    if cursor.begins(&[&TYPES, &[NAME]]) {
        let declaration = declaration(alloc, cursor, room)?;
        Ok(Start::Declare { declaration })
    } else {
        let steps = steps(alloc, cursor, room)?;
        Ok(Start::Steps { steps })
    }
}

fn handle(alloc: Global, cursor: &mut Cursor<'_>, room: u32) -> Result<Stmt, Halt>
    ensures { IsReading (stmt_part_read room grammar.handle_stmt cursor.old) result cursor.new }
{
    let of = handle_object(alloc, cursor)?;
    let name = cursor.name(alloc)?;
    cursor.mark(ASSIGN)?;
    let value = expr(alloc, cursor, ExprKind::Full, room)?;
    Ok(Stmt::Handle { of, name, value })
}

fn some_value(alloc: Global, cursor: &mut Cursor<'_>, room: u32) -> Result<Option<Expr>, Halt>
    ensures { IsReading (stmt_part_read room grammar.some_value cursor.old) result cursor.new }
{
    if !cursor.sees(ExprKind::Full.starts()) {
        return Ok(None);
    }
    Ok(Some(expr(alloc, cursor, ExprKind::Full, room)?))
}

fn result(alloc: Global, cursor: &mut Cursor<'_>, room: u32) -> Result<Stmt, Halt>
    ensures { IsReading (stmt_part_read room grammar.return_stmt cursor.old) result cursor.new }
{
    let place = cursor.word(Keyword::Return)?;
    let value = some_value(alloc, cursor, room)?;
    Ok(Stmt::Return { place, value })
}

/// A statement that ends with `;`, up to it.
fn unended(alloc: Global, cursor: &mut Cursor<'_>, room: u32) -> Result<Stmt, Halt>
    ensures { IsReading (stmt_part_read room grammar.unended cursor.old) result cursor.new }
{
    if cursor.sees(&[CONST]) {
        const_declared(alloc, cursor, room)
    } else if cursor.sees(&STEP_STARTS) {
        opening(alloc, cursor, room)
    } else if cursor.sees(&OBJECTS) {
        handle(alloc, cursor, room)
    } else if cursor.sees(&[BREAK]) {
        let place = cursor.word(Keyword::Break)?;
        Ok(Stmt::Break { place })
    } else if cursor.sees(&[CONTINUE]) {
        let place = cursor.word(Keyword::Continue)?;
        Ok(Stmt::Continue { place })
    } else {
        result(alloc, cursor, room)
    }
}

fn empty(cursor: &mut Cursor<'_>) -> Result<Stmt, Halt>
    ensures { IsReading (stmt_part_read 0 grammar.empty_stmt cursor.old) result cursor.new }
{
    let place = cursor.mark(SEMICOLON)?;
    Ok(Stmt::Empty { place })
}

fn ended(alloc: Global, cursor: &mut Cursor<'_>, room: u32) -> Result<Stmt, Halt>
    ensures { IsReading (stmt_part_read room grammar.ended_stmt cursor.old) result cursor.new }
{
    let stmt = unended(alloc, cursor, room)?;
    closed(cursor, stmt, SEMICOLON)
}

/// A statement without a body.
pub(crate) fn basic(alloc: Global, cursor: &mut Cursor<'_>, room: u32) -> Result<Stmt, Halt>
    ensures { IsReading (stmt_part_read room grammar.basic cursor.old) result cursor.new }
{
    if cursor.sees(&[SEMICOLON]) {
        empty(cursor)
    } else {
        ended(alloc, cursor, room)
    }
}

/// An expression in brackets.
pub(crate) fn condition(alloc: Global, cursor: &mut Cursor<'_>, room: u32) -> Result<Expr, Halt>
    ensures { IsReading (stmt_part_read room grammar.condition cursor.old) result cursor.new }
{
    cursor.mark(LEFT_PAREN)?;
    let test = expr(alloc, cursor, ExprKind::Full, room)?;
    closed(cursor, test, RIGHT_PAREN)
}

fn first_start(alloc: Global, cursor: &mut Cursor<'_>, room: u32) -> Result<Option<Start>, Halt>
    ensures { IsReading (stmt_part_read room grammar.first_start cursor.old) result cursor.new }
{
    if !cursor.sees(&START_STARTS) {
        return Ok(None);
    }
    if cursor.sees(&[CONST]) {
        let declaration = const_declaration(alloc, cursor, room)?;
        return Ok(Some(Start::Declare { declaration }));
    }
    Ok(Some(starting(alloc, cursor, room)?))
}

fn some_steps(alloc: Global, cursor: &mut Cursor<'_>, room: u32) -> Result<Option<Steps>, Halt>
    ensures { IsReading (stmt_part_read room grammar.some_steps cursor.old) result cursor.new }
{
    if !cursor.sees(&STEP_STARTS) {
        return Ok(None);
    }
    Ok(Some(steps(alloc, cursor, room)?))
}

pub(crate) fn header(alloc: Global, cursor: &mut Cursor<'_>, room: u32) -> Result<Header, Halt>
    ensures { IsReading (stmt_part_read room grammar.header cursor.old) result cursor.new }
{
    cursor.mark(LEFT_PAREN)?;
    let start = first_start(alloc, cursor, room)?;
    cursor.mark(SEMICOLON)?;
    let test = some_value(alloc, cursor, room)?;
    cursor.mark(SEMICOLON)?;
    let steps = some_steps(alloc, cursor, room)?;
    cursor.mark(RIGHT_PAREN)?;
    Ok(Header { start, test, steps })
}
