//! Two-sided operators and `?`.
ghost use Rattle.std.specs.Prelude.{◌-◌, ◌<◌};
ghost use Rattle.wg_tree.specs.GrammarExpr as grammar;
ghost use Rattle.wg_tree.specs.ReadsExpr as reads;
ghost use Rattle.wg_grammar.specs.Productions as parts;
ghost use Rattle.wg_cursor.specs.IsReading.{IsReading};
ghost use Rattle.wg_expressions.specs.Kinds.{kind_of};
ghost use Rattle.wg_expressions.specs.Levels.{read_above, read_sides};
ghost use Rattle.wg_expressions.specs.Rooms.{Nests, inside};

use crate::inner::Inner;
use crate::kind::{ExprKind, Nested};
use crate::operators::{binary_operator, operators};
use sqlite_items::{Boxed, Items};
use std::alloc::Global;
use wg_cursor::symbols::{COLON, QUESTION};
use wg_cursor::{Cursor, Halt, fitted, read_by_turns};
use wg_tree::{Expr, Link};

/// The loosest level of two-sided operators.
const LOOSEST: u32 = 10;

impl<F: Fn(Global, &mut Cursor<'_>, ExprKind, u32, Nested) -> Result<Expr, Halt>> Inner<F> {
    /// Operands with operators of this level and of tighter ones.
    #[cycle(level)]
    fn level(&self, cursor: &mut Cursor<'_>, level: u32) -> Result<Expr, Halt>
        requires { Nests self.now.room (F.pre self.now.nested) (F.post self.now.nested) }
        ensures { IsReading (reads.read_level (kind_of self.now.kind) (inside self.now.kind self.now.room) level cursor.old) result cursor.new }
    {
        if level == 0 {
            self.unary(cursor)
        } else {
            self.chain(cursor, level)
        }
    }

    #[cycle(level)]
    fn chain(&self, cursor: &mut Cursor<'_>, level: u32) -> Result<Expr, Halt>
        requires nests { Nests self.now.room (F.pre self.now.nested) (F.post self.now.nested) }
        requires above { 0 < level }
        ensures { IsReading (read_above self.now.kind self.now.room (level - 1) (grammar.links level) cursor.old) result cursor.new }
    {
        let first = self.level(cursor, level - 1)?;
        let rest = self.links(cursor, level)?;
        if rest.is_empty() {
            return Ok(first);
        }
        let first = Boxed::new(self.alloc, first)?;
        Ok(Expr::Chain { first, rest })
    }

    #[cycle(level)]
    fn links(&self, cursor: &mut Cursor<'_>, level: u32) -> Result<Items<Link>, Halt>
        requires nests { Nests self.now.room (F.pre self.now.nested) (F.post self.now.nested) }
        requires above { 0 < level }
        ensures { IsReading (read_above self.now.kind self.now.room (level - 1) (parts.list (grammar.link level)) cursor.old) result cursor.new }
    {
        read_by_turns::<Link>();
        let mut found = Vec::new(self.alloc);
        for _turn in 0..cursor.left() {
            if !cursor.sees(operators(level)) {
                return Ok(fitted(found));
            }
            found.push(self.link(cursor, level)?)?;
        }
        Ok(fitted(found))
    }

    #[cycle(level)]
    fn link(&self, cursor: &mut Cursor<'_>, level: u32) -> Result<Link, Halt>
        requires nests { Nests self.now.room (F.pre self.now.nested) (F.post self.now.nested) }
        requires above { 0 < level }
        ensures { IsReading (read_above self.now.kind self.now.room (level - 1) (grammar.link level) cursor.old) result cursor.new }
    {
        let token = cursor.take(operators(level))?;
        let operand = self.level(cursor, level - 1)?;
        Ok(Link {
            operator: binary_operator(level, token),
            place: token.place,
            operand,
        })
    }

    fn sides(&self, cursor: &mut Cursor<'_>) -> Result<(Expr, Expr), Halt>
        requires { Nests self.now.room (F.pre self.now.nested) (F.post self.now.nested) }
        ensures { IsReading (read_sides self.now.kind self.now.room grammar.two_sides cursor.old) result cursor.new }
    {
        cursor.mark(QUESTION)?;
        let then = self.whole(cursor)?;
        cursor.mark(COLON)?;
        let other = self.whole(cursor)?;
        Ok((then, other))
    }

    fn optional_sides(&self, cursor: &mut Cursor<'_>) -> Result<Option<(Expr, Expr)>, Halt>
        requires { Nests self.now.room (F.pre self.now.nested) (F.post self.now.nested) }
        ensures { IsReading (read_sides self.now.kind self.now.room (grammar.optional grammar.two_sides) cursor.old) result cursor.new }
    {
        if cursor.sees(&[QUESTION]) {
            let sides = self.sides(cursor)?;
            Ok(Some(sides))
        } else {
            Ok(None)
        }
    }

    pub(crate) fn expr(&self, cursor: &mut Cursor<'_>) -> Result<Expr, Halt>
        requires { Nests self.now.room (F.pre self.now.nested) (F.post self.now.nested) }
        ensures { IsReading (reads.read_expr (kind_of self.now.kind) (inside self.now.kind self.now.room) cursor.old) result cursor.new }
    {
        let test = self.level(cursor, LOOSEST)?;
        match self.optional_sides(cursor)? {
            Some((then, other)) => Ok(Expr::Choice {
                test: Boxed::new(self.alloc, test)?,
                then: Boxed::new(self.alloc, then)?,
                other: Boxed::new(self.alloc, other)?,
            }),
            None => Ok(test),
        }
    }
}
