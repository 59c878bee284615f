ghost use Rattle.std.specs.Prelude.{◌≡◌, [], ◌∷◌, MatchOption};
ghost use Rattle.wg_script.specs.Words.{without_return as unreturned, lines_of, line_words};

use std::marker::Model;
use wg_text::{Pieces, Separator};

/// A line without the carriage return at its end.
fn without_return(line: &[u8]) -> &[u8]
    ensures { result.now ≡ unreturned line.now }
{
    line.strip_suffix(b"\r").unwrap_or(line)
}

/// The lines of a text that are left.
#[derive(Drop)]
pub struct Lines<'a> {
    pieces: Pieces<'a>,
}

impl<'a> Model for Lines<'a> {
    ghost use Rattle.std.specs.Prelude.{List, ℕ};
    ghost use Rattle.wg_script.specs.Words.{lines_from};

    ghost Value = { List (List ℕ) };

    ghost view = { λ l. lines_from l.pieces };
}

impl<'a> Lines<'a> {
    pub fn new(text: &'a [u8]) -> Lines<'a>
        ensures { result ≡ lines_of text.now }
    {
        Lines {
            pieces: Pieces::new(text, Separator::Byte(b'\n')),
        }
    }

    pub fn next(&mut self) -> Option<&'a [u8]>
        ensures { MatchOption result ((self.old ≡ []) × (self.new ≡ [])) (λ line. self.old ≡ line.now ∷ self.new) }
    {
        let line = self.pieces.next()?;
        if self.pieces.is_empty() {
            return Some(line);
        }
        Some(without_return(line))
    }
}

/// The words of a line that are left.
#[derive(Drop)]
pub struct LineWords<'a> {
    pieces: Pieces<'a>,
}

impl<'a> Model for LineWords<'a> {
    ghost use Rattle.std.specs.Prelude.{List, ℕ};
    ghost use Rattle.std.specs.List.{filter};
    ghost use Rattle.wg_script.specs.Words.{is_some_text};

    ghost Value = { List (List ℕ) };

    ghost view = { λ w. filter is_some_text w.pieces };
}

impl<'a> LineWords<'a> {
    pub fn new(line: &'a [u8]) -> LineWords<'a>
        ensures { result ≡ line_words line.now }
    {
        LineWords {
            pieces: Pieces::new(line, Separator::Blank),
        }
    }

    pub fn next(&mut self) -> Option<&'a [u8]>
        ensures { MatchOption result ((self.old ≡ []) × (self.new ≡ [])) (λ word. self.old ≡ word.now ∷ self.new) }
    {
        while let Some(piece) = self.pieces.next() {
            if !piece.is_empty() {
                return Some(piece);
            }
        }
        None
    }
}
