ghost use Rattle.std.specs.Prelude.{◌≡◌, ℕ, false, length};
ghost use Rattle.wg_exchangers.specs.Graph.{forms_shape};
ghost use Rattle.wg_machine.specs.GoodShape.{IsGoodShape};
ghost use Rattle.wg_machine.specs.LaunchMeaning.{FitsShape};
ghost use Rattle.wg_machine.specs.Units.{shared_at};

use crate::buffers::{Pair, buffers_of};
use crate::deed::Deed;
use crate::told::Told;
use std::alloc::Global;
use std::fmt;
use wg_adders::{Adders, Doublers};
use wg_buffers::Buffers;
use wg_counters::Counters;
use wg_exchangers::{Exchangers, form_launch, forms};
use wg_guess::{Guess, guess};
use wg_machine::{Bodies, Launch, Shape};
use wg_words::Word;

/// The guess of a row with whether it agrees with the buffers that it was made over and with later ones, or why there is none.
#[derive(Drop)]
pub enum Answer {
    Guessed {
        guess: Guess,
        agrees: bool,
        later: Option<bool>,
    },
    /// Memory was wanting: the launch that came back has so many records.
    Back {
        records: usize,
    },
    /// A line is wanting.
    Nothing,
    Memory,
}

fn write_agreement<W: fmt::Write>(f: &mut fmt::Formatter<W>, agrees: bool) -> fmt::Result {
    if agrees {
        f.write_str("agrees")
    } else {
        f.write_str("differs")
    }
}

fn write_guessed<W: fmt::Write>(
    f: &mut fmt::Formatter<W>,
    guess: &Guess,
    agrees: bool,
    later: Option<bool>,
) -> fmt::Result {
    write!(f, "{}, ", Told(guess))?;
    write_agreement(f, agrees)?;
    if let Some(later) = later {
        f.write_str(", later ")?;
        write_agreement(f, later)?;
    }
    Ok(())
}

impl fmt::Display for Answer {
    fn fmt<W: fmt::Write>(&self, f: &mut fmt::Formatter<W>) -> fmt::Result {
        match self {
            Answer::Guessed {
                guess,
                agrees,
                later,
            } => write_guessed(f, guess, *agrees, *later),
            Answer::Back { records } => write!(f, "back with {records} records"),
            Answer::Nothing => f.write_str("nothing"),
            Answer::Memory => f.write_str("memory"),
        }
    }
}

/// Whether a guess agrees with buffers of these words, if there is memory for them.
fn agrees_with(alloc: Global, guess: &Guess, pair: &Pair) -> Option<bool>
    requires { length guess.now.lengths ≡ 2 }
{
    match buffers_of(alloc, pair) {
        Ok(buffers) => Some(guess.agrees(&buffers)),
        Err(_) => None,
    }
}

/// What a guess of a launch over buffers tells.
fn guessed<B: Bodies>(
    alloc: Global,
    bodies: &B,
    launch: Launch,
    over: &Buffers,
    turns: u64,
    later: &Option<Pair>,
) -> Answer
    requires good { IsGoodShape (B.graph bodies.now) }
    requires fits { FitsShape (B.graph bodies.now) launch }
    requires two { length (B.graph bodies.now).buffers ≡ 2 }
    requires over { length over.now ≡ 2 }
{
    match guess(alloc, bodies, launch, over, turns) {
        Err((launch, _)) => Answer::Back {
            records: launch.records.len(),
        },
        Ok(guess) => {
            let agrees = guess.agrees(over);
            let later = match later {
                Some(pair) => agrees_with(alloc, &guess, pair),
                None => None,
            };
            Answer::Guessed {
                guess,
                agrees,
                later,
            }
        }
    }
}

/// The word of a deed's record.
fn word_of(deed: Deed) -> Word {
    match deed {
        Deed::Add(word) | Deed::Count(word) => word,
        Deed::Form(_) | Deed::Double => 0,
    }
}

/// What a guess of a deed's launch over buffers tells.
fn guessed_deed(
    alloc: Global,
    deed: Deed,
    shape: Shape,
    over: &Buffers,
    turns: u64,
    later: &Option<Pair>,
) -> Answer
    requires shape { shape ≡ forms_shape }
    requires good { IsGoodShape shape }
    requires none_shared { (u : ℕ) → shared_at shape u ≡ false }
    requires over { length over.now ≡ 2 }
{
    let Ok(launch) = form_launch(alloc, word_of(deed)) else {
        return Answer::Memory;
    };
    match deed {
        Deed::Form(form) => {
            let bodies = Exchangers { alloc, shape, form };
            guessed(alloc, &bodies, launch, over, turns, later)
        }
        Deed::Add(_) => guessed(alloc, &Adders { alloc, shape }, launch, over, turns, later),
        Deed::Double => guessed(
            alloc,
            &Doublers { alloc, shape },
            launch,
            over,
            turns,
            later,
        ),
        Deed::Count(_) => guessed(
            alloc,
            &Counters { alloc, shape },
            launch,
            over,
            turns,
            later,
        ),
    }
}

/// The answer to a row of this launch, turns and buffers.
pub fn answer_of(
    alloc: Global,
    deed: Option<Deed>,
    turns: u64,
    over: &Option<Pair>,
    later: &Option<Pair>,
) -> Answer {
    let (Some(deed), Some(over)) = (deed, over) else {
        return Answer::Nothing;
    };
    let Ok(over) = buffers_of(alloc, over) else {
        return Answer::Memory;
    };
    match forms(alloc) {
        Ok(shape) => guessed_deed(alloc, deed, shape, &over, turns, later),
        Err(_) => Answer::Memory,
    }
}
