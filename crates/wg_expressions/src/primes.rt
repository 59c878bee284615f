//! The primes of expressions.
ghost use Rattle.std.specs.Prelude.{◌≡◌, [], ◌∷◌, IfOk};
ghost use Rattle.wg_tree.specs.GrammarExpr as grammar;
ghost use Rattle.wg_cursor.specs.IsReading.{IsReading};
ghost use Rattle.wg_expressions.specs.Rooms.{Nests, read};

use crate::inner::Inner;
use crate::kind::{ExprKind, Nested, VALUE_TYPES};
use crate::operators::value_type;
use sqlite_items::Boxed;
use std::alloc::{AllocError, Global};
use wg_cursor::symbols::{FALSE, LEFT_PAREN, NAME, NUMBER, RIGHT_PAREN, TEXT, TRUE, ZERO};
use wg_cursor::{Cursor, Halt};
use wg_tokens::{Token, TokenKind};
use wg_tree::Expr;
use wg_words::{Items, Name, TryCopy};

/// The bytes of a string.
fn bytes_of(alloc: Global, token: &Token) -> Result<Name, AllocError>
    ensures { IfOk result (λ bytes. bytes ≡ grammar.text_bytes token.now.kind) }
{
    match &token.kind {
        TokenKind::Text { bytes } => bytes.copy(alloc),
        _ => Ok(Items::new(alloc)),
    }
}

impl<F: Fn(Global, &mut Cursor<'_>, ExprKind, u32, Nested) -> Result<Expr, Halt>> Inner<F> {
    fn number(&self, cursor: &mut Cursor<'_>) -> Result<Expr, Halt>
        ensures { IsReading (read self.now.kind self.now.room grammar.numbers cursor.old) result cursor.new }
    {
        let token = cursor.take(&[NUMBER, ZERO])?;
        let place = token.place;
        match token.kind {
            TokenKind::Number {
                value,
                unsigned,
                long,
            } => Ok(Expr::Number {
                place,
                value,
                unsigned,
                long,
            }),
            _ => Ok(Expr::Number {
                place,
                value: 0,
                unsigned: false,
                long: false,
            }),
        }
    }

    fn text(&self, cursor: &mut Cursor<'_>) -> Result<Expr, Halt>
        ensures { IsReading (read self.now.kind self.now.room grammar.texts cursor.old) result cursor.new }
    {
        let token = cursor.take(&[TEXT])?;
        let place = token.place;
        let bytes = bytes_of(self.alloc, token)?;
        Ok(Expr::Text { place, bytes })
    }

    fn truth(&self, cursor: &mut Cursor<'_>) -> Result<Expr, Halt>
        ensures { IsReading (read self.now.kind self.now.room grammar.truths cursor.old) result cursor.new }
    {
        let value = cursor.sees(&[TRUE]);
        let place = cursor.take(&[TRUE, FALSE])?.place;
        Ok(Expr::Truth { place, value })
    }

    fn name_only(&self, cursor: &mut Cursor<'_>) -> Result<Expr, Halt>
        ensures { IsReading (read self.now.kind self.now.room grammar.name_only cursor.old) result cursor.new }
    {
        let name = cursor.name(self.alloc)?;
        Ok(Expr::Name { name })
    }

    fn name_or_call(&self, cursor: &mut Cursor<'_>) -> Result<Expr, Halt>
        requires { Nests self.now.room (F.pre self.now.nested) (F.post self.now.nested) }
        ensures { IsReading (read self.now.kind self.now.room grammar.name_or_call cursor.old) result cursor.new }
    {
        let name = cursor.name(self.alloc)?;
        match self.optional_arguments(cursor)? {
            Some(arguments) => Ok(Expr::Call { name, arguments }),
            None => Ok(Expr::Name { name }),
        }
    }

    fn construct(&self, cursor: &mut Cursor<'_>) -> Result<Expr, Halt>
        requires { Nests self.now.room (F.pre self.now.nested) (F.post self.now.nested) }
        ensures { IsReading (read self.now.kind self.now.room grammar.construct cursor.old) result cursor.new }
    {
        let token = cursor.take(&VALUE_TYPES)?;
        self.mark(cursor, LEFT_PAREN)?;
        let arguments = self.some_exprs(cursor)?;
        self.mark(cursor, RIGHT_PAREN)?;
        Ok(Expr::Construct {
            place: token.place,
            of: value_type(token),
            arguments,
        })
    }

    fn bracket(&self, cursor: &mut Cursor<'_>) -> Result<Expr, Halt>
        requires { Nests self.now.room (F.pre self.now.nested) (F.post self.now.nested) }
        ensures { IsReading (read self.now.kind self.now.room grammar.bracket cursor.old) result cursor.new }
    {
        let place = self.mark(cursor, LEFT_PAREN)?;
        let inner = self.whole(cursor)?;
        self.mark(cursor, RIGHT_PAREN)?;
        let inner = Boxed::new(self.alloc, inner)?;
        Ok(Expr::Bracket { place, inner })
    }

    pub(crate) fn full_prime(&self, cursor: &mut Cursor<'_>) -> Result<Expr, Halt>
        requires { Nests self.now.room (F.pre self.now.nested) (F.post self.now.nested) }
        ensures { IsReading (read self.now.kind self.now.room (grammar.prime grammar.full) cursor.old) result cursor.new }
    {
        if cursor.sees(&[NUMBER, ZERO]) {
            self.number(cursor)
        } else if cursor.sees(&[TRUE, FALSE]) {
            self.truth(cursor)
        } else if cursor.sees(&[NAME]) {
            self.name_or_call(cursor)
        } else if cursor.sees(&VALUE_TYPES) {
            self.construct(cursor)
        } else {
            self.bracket(cursor)
        }
    }

    pub(crate) fn constant_prime(&self, cursor: &mut Cursor<'_>) -> Result<Expr, Halt>
        requires { Nests self.now.room (F.pre self.now.nested) (F.post self.now.nested) }
        ensures { IsReading (read self.now.kind self.now.room (grammar.prime grammar.constant) cursor.old) result cursor.new }
    {
        if cursor.sees(&[NUMBER, ZERO]) {
            self.number(cursor)
        } else if cursor.sees(&[NAME]) {
            self.name_only(cursor)
        } else {
            self.bracket(cursor)
        }
    }

    pub(crate) fn argument_prime(&self, cursor: &mut Cursor<'_>) -> Result<Expr, Halt>
        requires { Nests self.now.room (F.pre self.now.nested) (F.post self.now.nested) }
        ensures { IsReading (read self.now.kind self.now.room (grammar.prime grammar.argument) cursor.old) result cursor.new }
    {
        if cursor.sees(&[NUMBER, ZERO]) {
            self.number(cursor)
        } else if cursor.sees(&[TEXT]) {
            self.text(cursor)
        } else if cursor.sees(&[NAME]) {
            self.name_only(cursor)
        } else {
            self.bracket(cursor)
        }
    }
}
