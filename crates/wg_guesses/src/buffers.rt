ghost use Rattle.std.specs.Prelude.{◌≡◌, IfOk, length};

use std::alloc::{AllocError, Global};
use wg_buffers::Buffers;
use wg_words::{TryCopy, Words};

/// The words of the two buffers.
#[derive(Drop)]
pub struct Pair {
    first: Words,
    second: Words,
}

/// The words of a text; what is no number is left out.
fn read_words(alloc: Global, text: &str) -> Result<Words, AllocError> {
    let mut words = Words::new(alloc);
    for word in text.split_whitespace() {
        if let Ok(value) = word.parse::<u32>() {
            words.push(value)?;
        }
    }
    Ok(words)
}

/// Two buffers' words, with a `/` between them.
pub fn read_pair(alloc: Global, text: &str) -> Result<Pair, AllocError> {
    let (first, second) = match text.split_once('/') {
        Some(halves) => halves,
        None => (text, ""),
    };
    Ok(Pair {
        first: read_words(alloc, first)?,
        second: read_words(alloc, second)?,
    })
}

/// The buffers of these words, if there is memory for them.
#[tactic(auto, using(crate::proofs::Lengths::two_fit))]
pub fn buffers_of(alloc: Global, pair: &Pair) -> Result<Buffers, AllocError>
    ensures { IfOk result (λ buffers. length buffers ≡ 2) }
{
    let Ok(first) = u32::try_from(pair.first.len()) else {
        return Err(AllocError);
    };
    let Ok(second) = u32::try_from(pair.second.len()) else {
        return Err(AllocError);
    };
    let start = [pair.first.copy(alloc)?, pair.second.copy(alloc)?];
    let buffers = Buffers::new(alloc, &[first, second], &start)?;
    Ok(buffers)
}
