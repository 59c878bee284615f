//! Where a byte stands in a text.
ghost use Rattle.std.specs.Prelude.{◌≡◌, ◌+◌, ◌-◌, ◌<◌, ◌^◌, length, fold};
ghost use Rattle.wg_lex.specs.Positions.{next_position};

use crate::characters::is_blank;
use wg_words::Place;

/// The place of the next byte, and whether only blanks stand before it on its line.
#[derive(Clone, Copy, Debug, PartialEq, Eq)]
pub struct Position {
    pub place: Place,
    pub only_blanks: bool,
}

impl Position {
    pub const START: Position = Position {
        place: Place { line: 1, column: 1 },
        only_blanks: true,
    };

    fn next(self, b: u8) -> Position
        requires line_fits { self.place.line < 2 ^ 32 - 1 }
        requires column_fits { self.place.column < 2 ^ 32 - 1 }
        ensures { result ≡ next_position self b }
    {
        if b == b'\n' {
            Position {
                place: Place {
                    line: self.place.line + 1,
                    column: 1,
                },
                only_blanks: true,
            }
        } else {
            Position {
                place: Place {
                    line: self.place.line,
                    column: self.place.column + 1,
                },
                only_blanks: self.only_blanks && is_blank(b),
            }
        }
    }

    /// The position after some bytes.
    pub fn after(self, bytes: &[u8]) -> Position
        requires line_fits { self.place.line + length bytes.now < 2 ^ 32 }
        requires column_fits { self.place.column + length bytes.now < 2 ^ 32 }
        ensures { result ≡ fold next_position self bytes.now }
    {
        let mut position = self;
        for b in bytes {
            position = position.next(*b);
        }
        position
    }
}
