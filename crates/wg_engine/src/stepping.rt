ghost use Rattle.std.specs.Prelude.{◌≡◌, ◌≢◌, None, Some, true};
ghost use Rattle.wg_machine.specs.GoodShape.{IsGoodShape};

use wg_guess::Guess;
use wg_machine::{Launch, Made, Writes};

/// The launch that spent its turns, by its ticket, as it was then.
#[derive(Debug, Drop)]
pub struct Spent {
    pub ticket: u64,
    pub launch: Launch,
}

/// What a launch makes with the buffers as they are, with its writes, and whether a guess that was handed in said so.
#[derive(Drop)]
pub struct Effect {
    pub made: Made,
    pub writes: Writes,
    pub kept: bool,
}

/// Why there is no effect: the launch spends its turns, or there was no memory.
#[derive(Drop)]
pub enum Halted {
    Turns(Launch),
    Memory,
}

/// The effect that a guess tells.
pub fn told_by(guess: Guess) -> Effect
    requires unspent { guess.answer ≢ None }
    ensures made { guess.answer ≡ Some result.made }
    ensures writes { result.writes ≡ guess.writes }
    ensures kept { result.kept ≡ true }
{
    let (_, answer, writes) = guess.parts();
    let Some(made) = answer else {
        unreachable!();
    };
    Effect {
        made,
        writes,
        kept: true,
    }
}
