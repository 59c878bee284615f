ghost use Rattle.std.specs.Prelude.{◌≡◌, ◌<◌, ◌^◌, IsTrue, IfOk, IfErr, [], length};
ghost use Rattle.std.specs.List.{list_all};
ghost use Rattle.wg_machine.specs.Buffers.{lengths_of};
ghost use Rattle.wg_machine.specs.GoodShape.{IsGoodShape};
ghost use Rattle.wg_machine.specs.LaunchMeaning.{FitsShape};
ghost use Rattle.wg_guess.specs.Guesses.{IsFor, IsTrueOf};
ghost use Rattle.wg_guess.specs.Logs.{is_inside, IsLoggedOnce};

use crate::guesses::Guess;
use crate::trial::Trial;
use std::alloc::{AllocError, Global};
use wg_machine::{Bodies, Halt, Launch, Made, ReadLog, View, Writes};
use wg_words::Words;

/// Runs a launch ahead over a view, which stays as it is. Where memory is wanting the launch comes back.
pub fn guess<B: Bodies, V: View>(
    alloc: Global,
    bodies: &B,
    launch: Launch,
    view: &V,
    turns: u64,
) -> Result<Guess, (Launch, AllocError)>
    requires good { IsGoodShape (B.graph bodies.now) }
    requires fits { FitsShape (B.graph bodies.now) launch }
    requires many { length (V.buffers view.now) ≡ length (B.graph bodies.now).buffers }
    ensures launch { IfOk result (λ guess. guess.launch ≡ launch) }
    ensures truth { IfOk result (IsTrueOf (B.graph bodies.now) (B.made bodies.now) turns) }
    ensures agrees { IfOk result (λ guess. IsFor guess (V.buffers view.now)) }
    ensures inside { IfOk result (λ guess. IsTrue (list_all (is_inside guess.lengths) guess.log)) }
    ensures once { IfOk result (λ guess. IsLoggedOnce guess.log) }
    ensures quiet { IsTrue (B.quiet bodies.now) → IfOk result (λ guess. guess.log ≡ []) }
    ensures comes_back { IfErr result (λ e. e.0 ≡ launch) }
{
    let Ok(lengths) = logged_lengths(alloc, view, bodies.shape().buffers.len()) else {
        return Err((launch, AllocError));
    };
    let mut trial = Trial::new(alloc, view);
    match bodies.launch(&launch, &mut trial, turns) {
        Ok(made) => Ok(guessed_from(launch, lengths, trial, Some(made))),
        Err(Halt::Turns) => Ok(guessed_from(launch, lengths, trial, None)),
        Err(Halt::Memory) => Err((launch, AllocError)),
    }
}

fn logged_lengths<V: View>(alloc: Global, view: &V, count: usize) -> Result<Words, AllocError>
    requires many { count ≡ length (V.buffers view.now) }
    requires few { count < 2 ^ 32 }
    ensures { IfOk result (λ lengths. lengths ≡ lengths_of (V.buffers view.now)) }
{
    let mut lengths = Words::new(alloc);
    for buffer in 0..count {
        lengths.push(view.length(buffer as u32))?;
    }
    Ok(lengths)
}

/// What a trial tells of its launch.
fn guessed_from<V: View>(
    launch: Launch,
    lengths: Words,
    trial: Trial<V>,
    answer: Option<Made>,
) -> Guess
    requires few { length lengths < 2 ^ 32 }
    requires lengths { lengths ≡ lengths_of (V.buffers trial.view.now) }
    ensures launch { result.launch ≡ launch }
    ensures lengths { result.lengths ≡ lengths }
    ensures log { result.log ≡ trial.entry.log.items }
    ensures writes { result.writes ≡ trial.entry.writes.items }
    ensures answer { result.answer ≡ answer }
    ensures agrees { IsFor result (V.buffers trial.entry.view.now) }
    ensures inside { IsTrue (list_all (is_inside result.lengths) result.log) }
    ensures once { IsLoggedOnce result.log }
{
    let (log, writes) = trial.into_parts();
    Guess {
        launch,
        lengths,
        log: ReadLog::from_vec(log),
        writes: Writes::from_vec(writes),
        answer,
    }
}
