//! Declarations of local variables, and the sizes of arrays.
ghost use Rattle.wg_cursor.specs.IsReading.{IsReading};
ghost use Rattle.wg_declarations.specs.PartReads.{stmt_part_read};
ghost use Rattle.wg_tree.specs.GrammarStmt as grammar;

use crate::type_names::a_type;
use std::alloc::Global;
use wg_cursor::symbols::{ASSIGN, COMMA, LEFT_BRACKET, RIGHT_BRACKET};
use wg_cursor::{Cursor, ElementReader, Halt, many};
use wg_expressions::{ExprKind, expr};
use wg_tokens::Keyword;
use wg_tree::{Declaration, Declarator, Expr};

/// The size of an array, if it is one.
pub fn size(alloc: Global, cursor: &mut Cursor<'_>, room: u32) -> Result<Option<Expr>, Halt>
    ensures { IsReading (stmt_part_read room (grammar.size_of grammar.const_part) cursor.old) result cursor.new }
{
    if !cursor.sees(&[LEFT_BRACKET]) {
        return Ok(None);
    }
    cursor.mark(LEFT_BRACKET)?;
    let size = expr(alloc, cursor, ExprKind::Constant, room)?;
    cursor.mark(RIGHT_BRACKET)?;
    Ok(Some(size))
}

fn start_value(alloc: Global, cursor: &mut Cursor<'_>, room: u32) -> Result<Option<Expr>, Halt>
    ensures { IsReading (stmt_part_read room (grammar.start_value grammar.value_part grammar.const_part) cursor.old) result cursor.new }
{
    if !cursor.sees(&[ASSIGN]) {
        return Ok(None);
    }
    cursor.mark(ASSIGN)?;
    Ok(Some(expr(alloc, cursor, ExprKind::Full, room)?))
}

fn declarator(alloc: Global, cursor: &mut Cursor<'_>, room: u32) -> Result<Declarator, Halt>
    ensures { IsReading (stmt_part_read room (grammar.declarator grammar.value_part grammar.const_part) cursor.old) result cursor.new }
{
    let name = cursor.name(alloc)?;
    let size = size(alloc, cursor, room)?;
    let value = start_value(alloc, cursor, room)?;
    Ok(Declarator { name, size, value })
}

#[derive(Drop)]
struct NextDeclarator {
    room: u32,
}

impl ElementReader for NextDeclarator {
    ghost use Rattle.wg_declarations.specs.PartReads.{stmt_part_read};
    ghost use Rattle.wg_tree.specs.GrammarStmt as grammar;

    type Tree = Declarator;

    ghost reads = { λ rule. stmt_part_read rule.room (grammar.next_declarator grammar.value_part grammar.const_part) };

    fn read(&self, alloc: Global, cursor: &mut Cursor<'_>) -> Result<Declarator, Halt> {
        cursor.mark(COMMA)?;
        declarator(alloc, cursor, self.room)
    }
}

pub fn declaration(alloc: Global, cursor: &mut Cursor<'_>, room: u32) -> Result<Declaration, Halt>
    ensures { IsReading (stmt_part_read room (grammar.declaration grammar.value_part grammar.const_part) cursor.old) result cursor.new }
{
    let of = a_type(alloc, cursor)?;
    let first = declarator(alloc, cursor, room)?;
    let rest = many(alloc, cursor, &[COMMA], &NextDeclarator { room })?;
    Ok(Declaration {
        constant: None,
        of,
        first,
        rest,
    })
}

/// A declaration that begins with `const`.
pub fn const_declaration(
    alloc: Global,
    cursor: &mut Cursor<'_>,
    room: u32,
) -> Result<Declaration, Halt>
    ensures { IsReading (stmt_part_read room (grammar.const_declaration grammar.value_part grammar.const_part) cursor.old) result cursor.new }
{
    let place = cursor.word(Keyword::Const)?;
    let of = a_type(alloc, cursor)?;
    let first = declarator(alloc, cursor, room)?;
    let rest = many(alloc, cursor, &[COMMA], &NextDeclarator { room })?;
    Ok(Declaration {
        constant: Some(place),
        of,
        first,
        rest,
    })
}
