//! What stands one deeper in an expression. What reads it is a parameter, so that each part is proved by itself.
ghost use Rattle.std.specs.Prelude.{◌≡◌, [], ◌∷◌, true};
ghost use Rattle.wg_tokens.specs.Classes as symbols;
ghost use Rattle.wg_tree.specs.GrammarExpr as grammar;
ghost use Rattle.wg_grammar.specs.Productions as parts;
ghost use Rattle.wg_cursor.specs.ClassSets.{numbers};
ghost use Rattle.wg_cursor.specs.IsReading.{IsReading, Lends};
ghost use Rattle.wg_expressions.specs.Rooms.{Nests, inside, read};

use crate::kind::{ExprKind, Nested};
use sqlite_items::Items;
use std::alloc::Global;
use wg_cursor::symbols::{COMMA, LEFT_PAREN, NAME, RIGHT_PAREN};
use wg_cursor::{Cursor, Halt, read_by_turns};
use wg_tokens::{Class, Token};
use wg_tree::{Expr, Named};
use wg_words::Place;

#[derive(Clone, Copy)]
pub(crate) struct Inner<F> {
    pub alloc: Global,
    pub kind: ExprKind,
    /// How much deeper it may go.
    pub room: u32,
    pub nested: F,
}

impl<F: Fn(Global, &mut Cursor<'_>, ExprKind, u32, Nested) -> Result<Expr, Halt>> Inner<F> {
    /// Whether there is room for what is one deeper.
    fn has_room(&self) -> bool
        ensures { result ≡ (inside self.now.kind self.now.room).room }
    {
        self.room > 0
    }

    /// Takes the next token, one deeper, if it is of one of these classes.
    pub(crate) fn take<'a>(&self, cursor: &mut Cursor<'a>, set: &[Class]) -> Result<&'a Token, Halt>
        ensures { Lends (parts.read_token true (inside self.now.kind self.now.room).room (parts.of symbols.class (numbers set.now)) (λ t. t) cursor.old) result cursor.new }
    {
        if self.has_room() {
            cursor.take(set)
        } else {
            Err(cursor.too_deep(set))
        }
    }

    pub(crate) fn mark(&self, cursor: &mut Cursor<'_>, class: Class) -> Result<Place, Halt>
        ensures { IsReading (parts.read_token true (inside self.now.kind self.now.room).room (parts.of symbols.class (symbols.number class ∷ [])) (λ t. t.place) cursor.old) result cursor.new }
    {
        if self.has_room() {
            cursor.mark(class)
        } else {
            Err(cursor.too_deep(&[class]))
        }
    }

    pub(crate) fn name(&self, cursor: &mut Cursor<'_>) -> Result<Named, Halt>
        ensures { IsReading (parts.read_token true (inside self.now.kind self.now.room).room (parts.of symbols.class (symbols.NAME ∷ [])) grammar.placed_name cursor.old) result cursor.new }
    {
        if self.has_room() {
            cursor.name(self.alloc)
        } else {
            Err(cursor.too_deep(&[NAME]))
        }
    }

    pub(crate) fn whole(&self, cursor: &mut Cursor<'_>) -> Result<Expr, Halt>
        requires { Nests self.now.room (F.pre self.now.nested) (F.post self.now.nested) }
        ensures { IsReading ((inside self.now.kind self.now.room).read grammar.whole cursor.old) result cursor.new }
    {
        (self.nested)(self.alloc, cursor, self.kind, self.room, Nested::Whole)
    }

    pub(crate) fn operand(&self, cursor: &mut Cursor<'_>) -> Result<Expr, Halt>
        requires { Nests self.now.room (F.pre self.now.nested) (F.post self.now.nested) }
        ensures { IsReading ((inside self.now.kind self.now.room).read grammar.operand cursor.old) result cursor.new }
    {
        (self.nested)(self.alloc, cursor, self.kind, self.room, Nested::Operand)
    }

    fn comma_expr(&self, cursor: &mut Cursor<'_>) -> Result<Expr, Halt>
        requires { Nests self.now.room (F.pre self.now.nested) (F.post self.now.nested) }
        ensures { IsReading (read self.now.kind self.now.room grammar.comma_expr cursor.old) result cursor.new }
    {
        self.mark(cursor, COMMA)?;
        self.whole(cursor)
    }

    pub(crate) fn some_exprs(&self, cursor: &mut Cursor<'_>) -> Result<Items<Expr>, Halt>
        requires { Nests self.now.room (F.pre self.now.nested) (F.post self.now.nested) }
        ensures { IsReading (read self.now.kind self.now.room grammar.some_exprs cursor.old) result cursor.new }
    {
        read_by_turns::<Expr>();
        let mut found = Items::new(self.alloc);
        found.push(self.whole(cursor)?)?;
        for _turn in 0..cursor.left() {
            if !cursor.sees(&[COMMA]) {
                return Ok(found);
            }
            found.push(self.comma_expr(cursor)?)?;
        }
        Ok(found)
    }

    fn some_exprs_or_none(&self, cursor: &mut Cursor<'_>) -> Result<Items<Expr>, Halt>
        requires { Nests self.now.room (F.pre self.now.nested) (F.post self.now.nested) }
        ensures { IsReading (read self.now.kind self.now.room grammar.exprs cursor.old) result cursor.new }
    {
        if cursor.sees(self.kind.starts()) {
            self.some_exprs(cursor)
        } else {
            Ok(Items::new(self.alloc))
        }
    }

    /// Arguments in brackets.
    fn arguments(&self, cursor: &mut Cursor<'_>) -> Result<Items<Expr>, Halt>
        requires { Nests self.now.room (F.pre self.now.nested) (F.post self.now.nested) }
        ensures { IsReading (read self.now.kind self.now.room grammar.arguments cursor.old) result cursor.new }
    {
        self.mark(cursor, LEFT_PAREN)?;
        let arguments = self.some_exprs_or_none(cursor)?;
        self.mark(cursor, RIGHT_PAREN)?;
        Ok(arguments)
    }

    /// Arguments in brackets, if a bracket follows.
    pub(crate) fn optional_arguments(
        &self,
        cursor: &mut Cursor<'_>,
    ) -> Result<Option<Items<Expr>>, Halt>
        requires { Nests self.now.room (F.pre self.now.nested) (F.post self.now.nested) }
        ensures { IsReading (read self.now.kind self.now.room (grammar.optional grammar.arguments) cursor.old) result cursor.new }
    {
        if cursor.sees(&[LEFT_PAREN]) {
            let arguments = self.arguments(cursor)?;
            Ok(Some(arguments))
        } else {
            Ok(None)
        }
    }
}
