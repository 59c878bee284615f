//! Expressions.
ghost use Rattle.wg_tree.specs.ReadsExpr as reads;
ghost use Rattle.wg_cursor.specs.IsReading.{IsReading};
ghost use Rattle.wg_expressions.specs.Kinds.{kind_of};
ghost use Rattle.wg_expressions.specs.Rooms.{inside, nested_of};

use crate::inner::Inner;
use crate::kind::{ExprKind, Nested};
use std::alloc::Global;
use wg_cursor::{Cursor, Halt};
use wg_tree::Expr;

/// Reads what is nested in an expression that has room for this much nesting.
fn nested(
    alloc: Global,
    cursor: &mut Cursor<'_>,
    kind: ExprKind,
    room: u32,
    part: Nested,
) -> Result<Expr, Halt>
    ensures { IsReading ((inside kind room).read (nested_of part) cursor.old) result cursor.new }
{
    if room == 0 {
        return Err(cursor.too_deep(kind.starts()));
    }
    let inner = Inner {
        alloc,
        kind,
        room: room - 1,
        nested,
    };
    match part {
        Nested::Whole => inner.expr(cursor),
        Nested::Operand => inner.unary(cursor),
    }
}

/// Reads an expression with room for this much nesting.
pub fn expr(alloc: Global, cursor: &mut Cursor<'_>, kind: ExprKind, room: u32) -> Result<Expr, Halt>
    ensures { IsReading (reads.expr_read_at (kind_of kind) room cursor.old) result cursor.new }
{
    Inner {
        alloc,
        kind,
        room,
        nested,
    }
    .expr(cursor)
}
