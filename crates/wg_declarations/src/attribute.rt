//! Attributes.
ghost use Rattle.wg_cursor.specs.IsReading.{IsReading};
ghost use Rattle.wg_declarations.specs.PartReads.{item_part_read};
ghost use Rattle.wg_tree.specs.GrammarItem as items;
ghost use Rattle.wg_tree.specs.GrammarStmt as stmts;

use sqlite_items::Items;
use std::alloc::Global;
use wg_cursor::symbols::{COMMA, LEFT_BRACKET, LEFT_PAREN, RIGHT_BRACKET, RIGHT_PAREN};
use wg_cursor::{Cursor, ElementReader, Halt, joined, many};
use wg_expressions::{ExprKind, expr};
use wg_tree::{Attribute, Expr};

#[derive(Drop)]
struct NextArgument {
    room: u32,
}

impl ElementReader for NextArgument {
    ghost use Rattle.wg_declarations.specs.PartReads.{item_part_read};
    ghost use Rattle.wg_tree.specs.GrammarItem as items;
    ghost use Rattle.wg_tree.specs.GrammarStmt as stmts;

    type Tree = Expr;

    ghost reads = { λ rule. item_part_read rule.room (stmts.next_argument items.argument_part) };

    fn read(&self, alloc: Global, cursor: &mut Cursor<'_>) -> Result<Expr, Halt> {
        cursor.mark(COMMA)?;
        expr(alloc, cursor, ExprKind::Argument, self.room)
    }
}

fn some_arguments(alloc: Global, cursor: &mut Cursor<'_>, room: u32) -> Result<Items<Expr>, Halt>
    ensures { IsReading (item_part_read room (stmts.some_arguments items.argument_part) cursor.old) result cursor.new }
{
    let first = expr(alloc, cursor, ExprKind::Argument, room)?;
    let rest = many(alloc, cursor, &[COMMA], &NextArgument { room })?;
    Ok(joined(alloc, first, rest)?)
}

/// Arguments in brackets, if there are any.
fn arguments(alloc: Global, cursor: &mut Cursor<'_>, room: u32) -> Result<Items<Expr>, Halt>
    ensures { IsReading (item_part_read room (stmts.attribute_arguments items.argument_part) cursor.old) result cursor.new }
{
    if !cursor.sees(&[LEFT_PAREN]) {
        return Ok(Items::new(alloc));
    }
    cursor.mark(LEFT_PAREN)?;
    let arguments = some_arguments(alloc, cursor, room)?;
    cursor.mark(RIGHT_PAREN)?;
    Ok(arguments)
}

#[derive(Drop)]
struct AnAttribute {
    room: u32,
}

impl ElementReader for AnAttribute {
    ghost use Rattle.wg_declarations.specs.PartReads.{item_part_read};
    ghost use Rattle.wg_tree.specs.GrammarItem as items;
    ghost use Rattle.wg_tree.specs.GrammarStmt as stmts;

    type Tree = Attribute;

    ghost reads = { λ rule. item_part_read rule.room (stmts.attribute items.argument_part) };

    fn read(&self, alloc: Global, cursor: &mut Cursor<'_>) -> Result<Attribute, Halt> {
        let place = cursor.mark(LEFT_BRACKET)?;
        let name = cursor.name(alloc)?;
        let arguments = arguments(alloc, cursor, self.room)?;
        cursor.mark(RIGHT_BRACKET)?;
        Ok(Attribute {
            place,
            name,
            arguments,
        })
    }
}

/// Attributes, any number of them.
pub fn attributes(
    alloc: Global,
    cursor: &mut Cursor<'_>,
    room: u32,
) -> Result<Items<Attribute>, Halt>
    ensures { IsReading (item_part_read room items.attributes cursor.old) result cursor.new }
{
    many(alloc, cursor, &[LEFT_BRACKET], &AnAttribute { room })
}
