ghost use Rattle.std.specs.Prelude.{◌≡◌, IfOk, length};

use super::*;
use std::alloc::{AllocError, Global};
use std::test::Fail;
use wg_buffers::Buffers;
use wg_machine::{Records, SentList};
use wg_words::Word;

fn made(alloc: Global) -> Made {
    Made {
        sent: SentList::new(alloc),
        denied: 0,
        turns: 0,
        shared: None,
    }
}

/// A guess over one buffer of one word. If it has read the word, that was 5.
fn guess_of(alloc: Global, has_read: bool, is_spent: bool) -> Result<Guess, AllocError>
    ensures { IfOk result (λ guess. length guess.lengths ≡ 1) }
{
    let seen = Seen {
        buffer: 0,
        word: 0,
        value: 5,
    };
    let log = if has_read {
        ReadLog::from_slice(alloc, &[seen])?
    } else {
        ReadLog::new(alloc)
    };
    Ok(Guess {
        launch: Launch {
            unit: 0,
            records: Records::new(alloc),
            group: 0,
            grid: [1, 1, 1],
            last: true,
        },
        lengths: Words::from_slice(alloc, &[1])?,
        log,
        writes: Writes::new(alloc),
        answer: if is_spent { None } else { Some(made(alloc)) },
    })
}

fn agrees_with(alloc: Global, guess: &Guess, word: Word) -> Result<bool, AllocError>
    requires { length guess.now.lengths ≡ 1 }
{
    let start = [Words::from_slice(alloc, &[word])?];
    let buffers = Buffers::new(alloc, &[1], &start)?;
    Ok(guess.agrees(&buffers))
}

/// Whether a guess has read the word and is spent, the word that the buffer has then, and whether it agrees.
const ROWS: [(bool, bool, Word, bool); 5] = [
    (true, false, 5, true),
    (true, false, 6, false),
    (false, false, 6, true),
    (true, true, 5, true),
    (true, true, 6, false),
];

#[test]
fn a_guess_agrees_while_what_it_read_stays(rt: HostRuntime) -> Result<(), Fail> {
    for (has_read, is_spent, word, agrees) in ROWS {
        let guess = guess_of(rt.alloc(), has_read, is_spent)?;
        assert_eq!(rt; agrees_with(rt.alloc(), &guess, word)?, agrees);
        assert_eq!(rt; guess.spent(), is_spent);
    }
    Ok(())
}
