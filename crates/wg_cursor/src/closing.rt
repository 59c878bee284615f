//! What stands before a mark.
ghost use Rattle.std.specs.Prelude.{[], ◌∷◌};
ghost use Rattle.wg_cursor.specs.IsReading.{IsReading};
ghost use Rattle.wg_grammar.specs.Productions.{of};
ghost use Rattle.wg_grammar.specs.Reading.{Got, read_on, take_if};
ghost use Rattle.wg_tokens.specs.Classes.{class, number};

use crate::cursor::Cursor;
use crate::halt::Halt;
use wg_tokens::Class;

/// A tree that was read, if a token of this class comes after it.
pub fn closed<T: Drop>(cursor: &mut Cursor<'_>, tree: T, end: Class) -> Result<T, Halt>
    ensures { IsReading (read_on (take_if (of class (number end ∷ [])) (λ t. t.place) cursor.old) (λ _ rest. Got tree rest)) result cursor.new }
{
    cursor.mark(end)?;
    Ok(tree)
}
