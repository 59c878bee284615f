ghost use Rattle.std.specs.Prelude.{◌≡◌, ◌↔◌, [], ◌∷◌, slice_get, IsTrue, MatchOption};
ghost use Rattle.std.specs.Option.{option_copied};
ghost use Rattle.std.specs.List.{slice_split};
ghost use Rattle.wg_text.specs.Cut.{separates};

use crate::cutting::{Separator, cut};
use std::marker::Model;

/// The pieces of a text that are left, each up to a separator, the last up to the end. A piece may be empty.
#[derive(Drop)]
pub struct Pieces<'a> {
    rest: &'a [u8],
    ended: bool,
    at: Separator,
}

impl<'a> Model for Pieces<'a> {
    ghost use Rattle.std.specs.Prelude.{List, ℕ, [], if◌then◌else◌};
    ghost use Rattle.std.specs.List.{slice_split};
    ghost use Rattle.wg_text.specs.Cut.{separates};

    ghost Value = { List (List ℕ) };

    ghost view = { λ p. if p.ended then [] else slice_split (separates p.at) p.rest.now };
}

impl<'a> Pieces<'a> {
    pub fn new(text: &'a [u8], at: Separator) -> Pieces<'a>
        ensures { result ≡ slice_split (separates at) text.now }
    {
        Pieces {
            rest: text,
            ended: false,
            at,
        }
    }

    /// Whether no piece is left.
    pub fn is_empty(&self) -> bool
        ensures { IsTrue result ↔ (self.now ≡ []) }
    {
        self.ended
    }

    /// The next piece, which stays.
    pub fn peek(&self) -> Option<&'a [u8]>
        ensures { option_copied result ≡ slice_get self.now 0 }
    {
        if self.ended {
            return None;
        }
        match cut(self.rest, self.at) {
            Some((piece, _)) => Some(piece),
            None => Some(self.rest),
        }
    }

    pub fn next(&mut self) -> Option<&'a [u8]>
        ensures { MatchOption result ((self.old ≡ []) × (self.new ≡ [])) (λ piece. self.old ≡ piece.now ∷ self.new) }
    {
        if self.ended {
            return None;
        }
        let Some((piece, rest)) = cut(self.rest, self.at) else {
            self.ended = true;
            return Some(self.rest);
        };
        self.rest = rest;
        Some(piece)
    }
}
