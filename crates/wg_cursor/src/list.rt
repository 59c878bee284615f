//! Lists of what is read one by one.
ghost use Rattle.std.specs.Prelude.{◌≡◌, List, ◌∷◌, IfOk};
ghost use Rattle.wg_tokens.specs.declared.token.Token.{Token};
ghost use Rattle.wg_grammar.specs.Reading.{Reading, many};
ghost use Rattle.wg_grammar.specs.Productions.{of};
ghost use Rattle.wg_tokens.specs.Classes.{class};
ghost use Rattle.wg_cursor.specs.ClassSets.{numbers};
ghost use Rattle.wg_cursor.specs.IsReading.{IsReading};

use crate::cursor::Cursor;
use crate::halt::Halt;
use sqlite_items::Items;
use std::alloc::{AllocError, Global};
use wg_tokens::Class;

/// What reads one tree.
pub trait ElementReader {
    /// What it reads.
    type Tree: Drop;

    ghost reads: { Self → List Token → Reading Token Self.Tree };

    /// The tree at the front of what is left, or why there is none.
    fn read(&self, alloc: Global, cursor: &mut Cursor<'_>) -> Result<Self::Tree, Halt>
        ensures { IsReading (reads self.now cursor.old) result cursor.new };
}

/// These as a list with no room for more.
pub fn fitted<T: Drop>(found: Vec<T>) -> Items<T>
    ensures { result ≡ found.items }
{
    let mut found = found;
    found.shrink_to_fit();
    Items::from_vec(found)
}

/// A first tree and the rest as one list.
pub fn joined<T: Drop>(alloc: Global, first: T, rest: Items<T>) -> Result<Items<T>, AllocError>
    ensures { IfOk result (λ whole. whole ≡ first ∷ rest) }
{
    let mut whole = Vec::with_capacity(alloc, rest.len().saturating_add(1))?;
    whole.push(first)?;
    let mut whole = Items::from_vec(whole);
    whole.append(rest)?;
    Ok(whole)
}

/// Trees, as long as the next token begins one.
pub fn many<R: ElementReader>(
    alloc: Global,
    cursor: &mut Cursor<'_>,
    starts: &[Class],
    rule: &R,
) -> Result<Items<R::Tree>, Halt>
    ensures { IsReading (many (of class (numbers starts.now)) (R.reads rule.now) cursor.old) result cursor.new }
{
    let mut found = Vec::new(alloc);
    for _turn in 0..cursor.left() {
        if !cursor.sees(starts) {
            return Ok(fitted(found));
        }
        found.push(rule.read(alloc, cursor)?)?;
    }
    Ok(fitted(found))
}
