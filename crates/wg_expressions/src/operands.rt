//! Operands, with what stands before them.
ghost use Rattle.wg_tree.specs.GrammarExpr as grammar;
ghost use Rattle.wg_tree.specs.ReadsExpr as reads;
ghost use Rattle.wg_cursor.specs.IsReading.{IsReading};
ghost use Rattle.wg_expressions.specs.Kinds.{kind_of};
ghost use Rattle.wg_expressions.specs.Rooms.{Nests, inside, read};

use crate::inner::Inner;
use crate::kind::{ExprKind, Nested, PREFIX_OPERATORS, VALUE_TYPES};
use crate::operators::{prefix_operator, value_type};
use sqlite_items::Boxed;
use std::alloc::Global;
use wg_cursor::symbols::{LEFT_PAREN, NAME, RIGHT_PAREN, ZERO};
use wg_cursor::{Cursor, Halt};
use wg_tree::Expr;

impl<F: Fn(Global, &mut Cursor<'_>, ExprKind, u32, Nested) -> Result<Expr, Halt>> Inner<F> {
    fn prefixed(&self, cursor: &mut Cursor<'_>) -> Result<Expr, Halt>
        requires { Nests self.now.room (F.pre self.now.nested) (F.post self.now.nested) }
        ensures { IsReading (read self.now.kind self.now.room grammar.prefixed cursor.old) result cursor.new }
    {
        let token = cursor.take(&PREFIX_OPERATORS)?;
        let operand = self.operand(cursor)?;
        let operand = Boxed::new(self.alloc, operand)?;
        Ok(Expr::Prefix {
            place: token.place,
            operator: prefix_operator(token),
            operand,
        })
    }

    fn cast(&self, cursor: &mut Cursor<'_>) -> Result<Expr, Halt>
        requires { Nests self.now.room (F.pre self.now.nested) (F.post self.now.nested) }
        ensures { IsReading (read self.now.kind self.now.room grammar.cast cursor.old) result cursor.new }
    {
        let place = self.mark(cursor, LEFT_PAREN)?;
        let token = self.take(cursor, &VALUE_TYPES)?;
        self.mark(cursor, RIGHT_PAREN)?;
        let operand = self.operand(cursor)?;
        let operand = Boxed::new(self.alloc, operand)?;
        Ok(Expr::Cast {
            place,
            to: value_type(token),
            operand,
        })
    }

    fn zeros(&self, cursor: &mut Cursor<'_>) -> Result<Expr, Halt>
        ensures { IsReading (read self.now.kind self.now.room grammar.zero_struct cursor.old) result cursor.new }
    {
        let place = self.mark(cursor, LEFT_PAREN)?;
        let of = self.name(cursor)?;
        self.mark(cursor, RIGHT_PAREN)?;
        self.mark(cursor, ZERO)?;
        Ok(Expr::Zeros { place, of })
    }

    fn unprefixed(&self, cursor: &mut Cursor<'_>) -> Result<Expr, Halt>
        requires { Nests self.now.room (F.pre self.now.nested) (F.post self.now.nested) }
        ensures { IsReading (read self.now.kind self.now.room (grammar.unprefixed (kind_of self.now.kind)) cursor.old) result cursor.new }
    {
        match self.kind {
            ExprKind::Full => self.postfix(cursor),
            ExprKind::Constant => self.constant_prime(cursor),
            ExprKind::Argument => self.argument_prime(cursor),
        }
    }

    fn plain_operand(&self, cursor: &mut Cursor<'_>) -> Result<Expr, Halt>
        requires { Nests self.now.room (F.pre self.now.nested) (F.post self.now.nested) }
        ensures { IsReading (read self.now.kind self.now.room (grammar.plain_operand (kind_of self.now.kind)) cursor.old) result cursor.new }
    {
        if cursor.sees(&PREFIX_OPERATORS) {
            self.prefixed(cursor)
        } else {
            self.unprefixed(cursor)
        }
    }

    pub(crate) fn unary(&self, cursor: &mut Cursor<'_>) -> Result<Expr, Halt>
        requires { Nests self.now.room (F.pre self.now.nested) (F.post self.now.nested) }
        ensures { IsReading (reads.read_unary (kind_of self.now.kind) (inside self.now.kind self.now.room) cursor.old) result cursor.new }
    {
        match self.kind {
            ExprKind::Full => {
                if cursor.begins(&[&[LEFT_PAREN], &VALUE_TYPES, &[RIGHT_PAREN]]) {
                    self.cast(cursor)
                } else if cursor.begins(&[&[LEFT_PAREN], &[NAME], &[RIGHT_PAREN], &[ZERO]]) {
                    self.zeros(cursor)
                } else {
                    self.plain_operand(cursor)
                }
            }
            ExprKind::Constant | ExprKind::Argument => self.plain_operand(cursor),
        }
    }
}
