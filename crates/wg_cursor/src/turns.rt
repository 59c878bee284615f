//! What loops that read lists find.
ghost use Rattle.std.specs.Prelude.{List};
ghost use Rattle.wg_tokens.specs.declared.token.Token.{Token};
ghost use Rattle.wg_grammar.specs.Reading.{Reading, Reader};
ghost use Rattle.wg_cursor.specs.Turns.{EndsList, GoesOn, Halted};

/// A loop that reads an item a turn has read the whole list where no item comes, goes on where one does, and halts where one can't be read.
pub fn read_by_turns<X: Drop>()
    ensures ends { EndsList X }
    ensures goes_on { GoesOn X }
    ensures halts { Halted X }
{}
