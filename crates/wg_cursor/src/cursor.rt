//! A cursor over tokens.
ghost use Rattle.std.specs.Prelude.{◌≡◌, [], ◌∷◌, length, map, IfOk};
ghost use Rattle.wg_tokens.specs.Classes as symbols;
ghost use Rattle.wg_tree.specs.GrammarExpr as grammar;
ghost use Rattle.wg_tokens.specs.declared.token.Token.{Token};
ghost use Rattle.wg_grammar.specs.Productions as parts;
ghost use Rattle.wg_grammar.specs.Reading as reading;
ghost use Rattle.wg_cursor.specs.ClassSets.{numbers};
ghost use Rattle.wg_cursor.specs.IsReading.{IsReading, Halts, Lends};

use crate::halt::Halt;
use crate::symbols::NAME;
use std::alloc::{AllocError, Global};
use std::marker::Model;
use wg_tokens::{Class, Keyword, Token, TokenKind};
use wg_tree::Named;
use wg_words::{Items, Name, Place, TryCopy};

/// What is left of a list of tokens.
#[derive(Drop)]
pub struct Cursor<'a> {
    tokens: &'a [Token],
    classes: &'a [Class],
}

impl<'a> Model for Cursor<'a> {
    ghost use Rattle.std.specs.Prelude.{◌≡◌, List, map};
    ghost use Rattle.wg_tokens.specs.declared.token.Token.{Token};
    ghost use Rattle.wg_tokens.specs.Classes.{class_of};

    ghost Value = { List Token };

    ghost view = { λ c. c.tokens.now };

    ghost invariant = { λ c. c.classes.now ≡ map (λ token. class_of token.kind) c.tokens.now };
}

fn is_member(number: u8, set: &[Class]) -> bool
    ensures { result ≡ parts.member number (numbers set.now) }
{
    match set {
        [] => false,
        [first, rest @ ..] => number == first.number() || is_member(number, rest),
    }
}

fn begins(tokens: &[Token], classes: &[Class], sets: &[&[Class]]) -> bool
    requires { classes.now ≡ map (λ token. symbols.class_of token.kind) tokens.now }
    ensures { result ≡ reading.begins_with (map (λ set. parts.of symbols.class (numbers set.now)) sets.now) tokens.now }
{
    match sets {
        [] => true,
        [set, sets @ ..] => match (tokens, classes) {
            ([_, tokens @ ..], [class, classes @ ..]) => {
                is_member(class.number(), set) && begins(tokens, classes, sets)
            }
            _ => false,
        },
    }
}

impl<'a> Cursor<'a> {
    /// A cursor before these tokens, which are of these classes.
    pub fn new(tokens: &'a [Token], classes: &'a [Class]) -> Cursor<'a>
        requires { classes.now ≡ map (λ token. symbols.class_of token.kind) tokens.now }
        ensures { result ≡ tokens.now }
    {
        Cursor { tokens, classes }
    }

    /// The tokens that are left.
    pub fn rest(&self) -> &'a [Token]
        ensures { result.now ≡ self.now }
    {
        self.tokens
    }

    /// How many tokens are left.
    pub fn left(&self) -> usize
        ensures { result ≡ length self.now }
    {
        self.tokens.len()
    }

    /// Whether there is a next token, and it is of one of these classes.
    pub fn sees(&self, set: &[Class]) -> bool
        ensures { result ≡ reading.sees (parts.of symbols.class (numbers set.now)) self.now }
    {
        match (self.tokens, self.classes) {
            ([_, ..], [class, ..]) => is_member(class.number(), set),
            _ => false,
        }
    }

    /// Whether the next tokens are of these classes, in order.
    pub fn begins(&self, sets: &[&[Class]]) -> bool
        ensures { result ≡ reading.begins_with (map (λ set. parts.of symbols.class (numbers set.now)) sets.now) self.now }
    {
        begins(self.tokens, self.classes, sets)
    }

    /// Takes the next token, if it is of one of these classes.
    pub fn take(&mut self, set: &[Class]) -> Result<&'a Token, Halt>
        ensures { Lends (reading.take_if (parts.of symbols.class (numbers set.now)) (λ t. t) self.old) result self.new }
    {
        match (self.tokens, self.classes) {
            ([token, tokens @ ..], [class, classes @ ..]) if is_member(class.number(), set) => {
                self.tokens = tokens;
                self.classes = classes;
                Ok(token)
            }
            _ => Err(Halt::Wrong),
        }
    }

    /// Takes the next token, if it is of this class, and answers its place.
    pub fn mark(&mut self, class: Class) -> Result<Place, Halt>
        ensures { IsReading (reading.take_if (parts.of symbols.class (symbols.number class ∷ [])) (λ t. t.place) self.old) result self.new }
    {
        Ok(self.take(&[class])?.place)
    }

    /// Takes the next token, if it is this word of the language.
    pub fn word(&mut self, keyword: Keyword) -> Result<Place, Halt>
        ensures { IsReading (reading.take_if (parts.of symbols.class (symbols.of_word keyword ∷ [])) (λ t. t.place) self.old) result self.new }
    {
        self.mark(Class::Word { keyword })
    }

    /// Takes the next token, if it is a name.
    pub fn name(&mut self, alloc: Global) -> Result<Named, Halt>
        ensures { IsReading (reading.take_if (parts.of symbols.class (symbols.NAME ∷ [])) grammar.placed_name self.old) result self.new }
    {
        let token = self.take(&[NAME])?;
        let name = name_of(alloc, token)?;
        Ok(Named {
            name,
            place: token.place,
        })
    }

    /// The halt where one of these classes would be deeper than there is room for.
    pub fn too_deep(&self, set: &[Class]) -> Halt
        ensures { Halts (reading.too_deep {X = Token} (parts.of symbols.class (numbers set.now)) self.now) result self.now }
    {
        if self.sees(set) {
            Halt::Deep
        } else {
            Halt::Wrong
        }
    }
}

/// The bytes of a name.
fn name_of(alloc: Global, token: &Token) -> Result<Name, AllocError>
    ensures { IfOk result (λ name. name ≡ grammar.name_bytes token.now.kind) }
{
    match &token.kind {
        TokenKind::Plain { name } => name.copy(alloc),
        _ => Ok(Items::new(alloc)),
    }
}
