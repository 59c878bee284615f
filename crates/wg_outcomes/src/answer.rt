ghost use Rattle.std.specs.Prelude.{◌≡◌, ◌≤◌, IfOk, length};
ghost use Rattle.wg_machine.specs.GoodShape.{IsGoodShape};
ghost use Rattle.wg_machine.specs.LaunchMeaning.{FitsShape};

use crate::fitting::fitting;
use std::alloc::{AllocError, Global};
use wg_buffers::Buffers;
use wg_code::{RawCode, validate};
use wg_coded::Coded;
use wg_guess::{Guess, guess};
use wg_listing::{Graph, Listing, shape_of};
use wg_machine::Launch;
use wg_words::Words;

/// How many words the buffers have.
pub const LENGTHS: [u32; 2] = [64, 8];

/// What became of a row's launch.
#[derive(Drop)]
pub enum Answer {
    /// The guess of the launch, and the buffers after its writes.
    Guessed { guess: Guess, after: Buffers },
    /// The code is not valid.
    Refused,
    /// The launch is none of the graph's.
    Unfit,
    Memory,
}

/// Two buffers of 64 and 8 words that begin with these.
#[tactic(auto, using(crate::proofs::Lengths::two_fit))]
fn two_buffers(alloc: Global, first: Words, second: Words) -> Result<Buffers, AllocError>
    requires first { length first ≤ 64 }
    requires second { length second ≤ 8 }
    ensures { IfOk result (λ buffers. length buffers ≡ 2) }
{
    let start = [first, second];
    let buffers = Buffers::new(alloc, &LENGTHS, &start)?;
    Ok(buffers)
}

fn no_buffers(alloc: Global) -> Result<Buffers, AllocError>
    ensures { IfOk result (λ buffers. length buffers ≡ 0) }
{
    let buffers = Buffers::new(alloc, &[], &[])?;
    Ok(buffers)
}

/// The buffers of a graph that has so many of them, none or two.
fn buffers_for(
    alloc: Global,
    count: usize,
    first: Words,
    second: Words,
) -> Result<Buffers, AllocError>
    ensures { IfOk result (λ buffers. length buffers ≡ count) }
{
    if count == 0 {
        return no_buffers(alloc);
    }
    if count != 2 || first.len() > 64 || second.len() > 8 {
        return Err(AllocError);
    }
    two_buffers(alloc, first, second)
}

/// The answer of a guess over buffers.
fn answer_by(alloc: Global, guess: Guess, over: Buffers) -> Answer {
    let mut after = over;
    match after.apply(alloc, guess.writes.as_slice()) {
        Ok(()) => Answer::Guessed { guess, after },
        Err(_) => Answer::Memory,
    }
}

/// The answer of a launch of code over buffers.
fn guessed(alloc: Global, raw: RawCode, launch: Launch, over: Buffers, turns: u64) -> Answer
    requires good { IsGoodShape raw.shape }
    requires fits { FitsShape raw.shape launch }
    requires many { length over ≡ length raw.shape.buffers }
{
    let Some(code) = validate(raw) else {
        return Answer::Refused;
    };
    let bodies = Coded::new(alloc, code);
    match guess(alloc, &bodies, launch, &over, turns) {
        Ok(guess) => answer_by(alloc, guess, over),
        Err(_) => Answer::Memory,
    }
}

/// The answer to a row of this graph, code, launch, turns and first words of the buffers.
pub fn answer_of(
    alloc: Global,
    graph: Graph,
    listing: Listing,
    launch: Launch,
    turns: u64,
    first: Words,
    second: Words,
) -> Answer {
    let Ok(shape) = shape_of(alloc, graph) else {
        return Answer::Memory;
    };
    let Some(launch) = fitting(&shape, launch) else {
        return Answer::Unfit;
    };
    match buffers_for(alloc, shape.buffers.len(), first, second) {
        Ok(over) => guessed(alloc, listing.into_code(shape), launch, over, turns),
        Err(_) => Answer::Memory,
    }
}
