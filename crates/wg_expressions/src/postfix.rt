//! What follows an operand, and what stands before it.
ghost use Rattle.wg_tree.specs.GrammarExpr as grammar;
ghost use Rattle.wg_grammar.specs.Productions as parts;
ghost use Rattle.wg_cursor.specs.IsReading.{IsReading};
ghost use Rattle.wg_expressions.specs.Rooms.{Nests, read};

use crate::inner::Inner;
use crate::kind::{ExprKind, Nested};
use sqlite_items::{Boxed, Items};
use std::alloc::Global;
use wg_cursor::symbols::{DOT, LEFT_BRACKET, RIGHT_BRACKET};
use wg_cursor::{Cursor, Halt, read_by_turns};
use wg_tree::{Expr, Form};

impl<F: Fn(Global, &mut Cursor<'_>, ExprKind, u32, Nested) -> Result<Expr, Halt>> Inner<F> {
    fn member_or_method(&self, cursor: &mut Cursor<'_>) -> Result<Form, Halt>
        requires { Nests self.now.room (F.pre self.now.nested) (F.post self.now.nested) }
        ensures { IsReading (read self.now.kind self.now.room grammar.member_or_method cursor.old) result cursor.new }
    {
        cursor.mark(DOT)?;
        let name = cursor.name(self.alloc)?;
        match self.optional_arguments(cursor)? {
            Some(arguments) => Ok(Form::Method { name, arguments }),
            None => Ok(Form::Member { name }),
        }
    }

    fn index(&self, cursor: &mut Cursor<'_>) -> Result<Form, Halt>
        requires { Nests self.now.room (F.pre self.now.nested) (F.post self.now.nested) }
        ensures { IsReading (read self.now.kind self.now.room grammar.index cursor.old) result cursor.new }
    {
        let place = self.mark(cursor, LEFT_BRACKET)?;
        let index = self.whole(cursor)?;
        self.mark(cursor, RIGHT_BRACKET)?;
        Ok(Form::Index { place, index })
    }

    fn form(&self, cursor: &mut Cursor<'_>) -> Result<Form, Halt>
        requires { Nests self.now.room (F.pre self.now.nested) (F.post self.now.nested) }
        ensures { IsReading (read self.now.kind self.now.room grammar.a_form cursor.old) result cursor.new }
    {
        if cursor.sees(&[DOT]) {
            self.member_or_method(cursor)
        } else {
            self.index(cursor)
        }
    }

    fn forms(&self, cursor: &mut Cursor<'_>) -> Result<Items<Form>, Halt>
        requires { Nests self.now.room (F.pre self.now.nested) (F.post self.now.nested) }
        ensures { IsReading (read self.now.kind self.now.room (parts.list grammar.a_form) cursor.old) result cursor.new }
    {
        read_by_turns::<Form>();
        let mut found = Items::new(self.alloc);
        for _turn in 0..cursor.left() {
            if !cursor.sees(&[DOT, LEFT_BRACKET]) {
                return Ok(found);
            }
            found.push(self.form(cursor)?)?;
        }
        Ok(found)
    }

    pub(crate) fn postfix(&self, cursor: &mut Cursor<'_>) -> Result<Expr, Halt>
        requires { Nests self.now.room (F.pre self.now.nested) (F.post self.now.nested) }
        ensures { IsReading (read self.now.kind self.now.room grammar.postfix cursor.old) result cursor.new }
    {
        let first = self.full_prime(cursor)?;
        let forms = self.forms(cursor)?;
        if forms.is_empty() {
            return Ok(first);
        }
        let first = Boxed::new(self.alloc, first)?;
        Ok(Expr::Postfix { first, forms })
    }
}
