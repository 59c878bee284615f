ghost use Rattle.std.specs.Prelude.{◌≡◌, ◌<◌, ℕ, IfSome, length};
ghost use Rattle.std.specs.Option.{ForSome};
ghost use Rattle.wg_guess.specs.Guesses.{IsTrueOf};
ghost use Rattle.wg_machine.specs.LaunchMeaning.{Meaning};
ghost use Rattle.wg_machine.specs.declared.shape.Shape.{Shape as Graph};
ghost use Rattle.wg_driver.specs.Driving.{AreTrue, IsToldOut, KeepsPlan};

use crate::command::{Command, chosen};
use crate::step::Step;
use std::alloc::AllocError;
use wg_engine::{Core, Opened, Out, Settled};
use wg_guess::{Guess, guess};
use wg_kept::Keep;
use wg_machine::Bodies;
use wg_standing::outs_fit;

/// A launch that was opened, by its ticket, with its guess over the buffers of that moment.
#[derive(Drop)]
pub struct Ahead {
    pub ticket: u64,
    pub guess: Guess,
}

/// Guesses a launch that is out over the buffers of the core.
fn ahead_of<B: Bodies>(core: &Core<Keep>, bodies: &B, out: Out) -> Option<Ahead>
    requires graph { B.graph bodies.now ≡ core.now.shape }
    requires out { IsToldOut core.now out }
    ensures { IfSome result (λ a. IsTrueOf (B.graph bodies.now) (B.made bodies.now) core.now.limits.turns a.guess) }
{
    core.keeps_laws();
    outs_fit();
    let Out { ticket, launch } = out;
    let turns = core.limits().turns;
    match guess(core.allocator(), bodies, launch, core.buffers(), turns) {
        Ok(guess) => Some(Ahead { ticket, guess }),
        Err(_) => None,
    }
}

fn step_of(out: &Out) -> Step {
    Step::Launch {
        ticket: out.ticket,
        unit: out.launch.unit,
        group: out.launch.group,
        records: out.launch.records.len(),
        last: out.launch.last,
    }
}

/// Opens the launch that comes next, and keeps its guess.
fn open<B: Bodies>(
    core: &mut Core<Keep>,
    bodies: &B,
    guesses: &mut Vec<Ahead>,
) -> Result<Step, AllocError>
    requires graph { B.graph bodies.now ≡ core.old.shape }
    requires truths { AreTrue (B.graph bodies.now) (B.made bodies.now) core.old.limits.turns guesses.old.items }
    ensures plan { KeepsPlan core.old core.new }
    ensures truths { AreTrue (B.graph bodies.now) (B.made bodies.now) core.old.limits.turns guesses.new.items }
{
    match core.open() {
        Opened::Launch(out) => {
            let step = step_of(&out);
            let Some(ahead) = ahead_of(core, bodies, out) else {
                return Err(AllocError);
            };
            guesses.push(ahead)?;
            Ok(step)
        }
        Opened::NotNow => Ok(Step::NotNow),
        Opened::Idle => Ok(Step::Idle),
        Opened::LaunchesSpent => Ok(Step::LaunchesSpent),
        Opened::Stopped => Ok(Step::Stopped),
        Opened::Memory => Ok(Step::Memory),
    }
}

fn place_of(guesses: &[Ahead], ticket: u64) -> Option<usize>
    ensures { IfSome result (λ place. place < length guesses.now) }
{
    for (place, ahead) in guesses.iter().enumerate() {
        if ahead.ticket == ticket {
            return Some(place);
        }
    }
    None
}

/// Takes out the guess of the launch of a ticket, if there is one yet.
fn take(guesses: &mut Vec<Ahead>, ticket: u64) -> Option<Guess>
    ensures taken { (shape : Graph) (made : Meaning) (turns : ℕ) → AreTrue shape made turns guesses.old.items → ForSome result (IsTrueOf shape made turns) }
    ensures truths { (shape : Graph) (made : Meaning) (turns : ℕ) → AreTrue shape made turns guesses.old.items → AreTrue shape made turns guesses.new.items }
{
    let place = place_of(guesses.as_slice(), ticket)?;
    let Ahead { ticket: _, guess } = guesses.remove(place);
    Some(guess)
}

/// Settles the launch of a ticket.
pub fn settle<B: Bodies>(
    core: &mut Core<Keep>,
    bodies: &B,
    ticket: u64,
    guess: Option<Guess>,
) -> Step
    requires graph { B.graph bodies.now ≡ core.old.shape }
    requires truth { ForSome guess (IsTrueOf (B.graph bodies.now) (B.made bodies.now) core.old.limits.turns) }
    ensures { KeepsPlan core.old core.new }
{
    match core.settle(bodies, ticket, guess) {
        Settled::Kept => Step::Kept,
        Settled::Redone => Step::Redone,
        Settled::TurnsSpent(_) => Step::TurnsSpent,
        Settled::NotOut => Step::NotOut,
        Settled::Stopped => Step::Stopped,
        Settled::Memory => Step::Memory,
    }
}

/// Does a command that is not random.
fn call<B: Bodies>(
    core: &mut Core<Keep>,
    bodies: &B,
    command: Command,
    guesses: &mut Vec<Ahead>,
) -> Result<Step, AllocError>
    requires graph { B.graph bodies.now ≡ core.old.shape }
    requires truths { AreTrue (B.graph bodies.now) (B.made bodies.now) core.old.limits.turns guesses.old.items }
    ensures plan { KeepsPlan core.old core.new }
    ensures truths { AreTrue (B.graph bodies.now) (B.made bodies.now) core.old.limits.turns guesses.new.items }
{
    match command {
        Command::Settle {
            ticket,
            guess: Some(other),
        } => {
            let guess = take(guesses, other);
            Ok(settle(core, bodies, ticket, guess))
        }
        Command::Settle {
            ticket,
            guess: None,
        } => Ok(settle(core, bodies, ticket, None)),
        _ => open(core, bodies, guesses),
    }
}

/// Does so many commands that a seed chooses.
fn random<B: Bodies>(
    core: &mut Core<Keep>,
    bodies: &B,
    seed: u64,
    count: u64,
    guesses: &mut Vec<Ahead>,
) -> Result<(), AllocError>
    requires graph { B.graph bodies.now ≡ core.old.shape }
    requires truths { AreTrue (B.graph bodies.now) (B.made bodies.now) core.old.limits.turns guesses.old.items }
    ensures plan { KeepsPlan core.old core.new }
    ensures truths { AreTrue (B.graph bodies.now) (B.made bodies.now) core.old.limits.turns guesses.new.items }
{
    let mut seed = seed;
    for _ in 0..count {
        let opened = core.length().saturating_add(core.out_count());
        let (next, command) = chosen(seed, u32::try_from(opened).unwrap_or(u32::MAX));
        call(core, bodies, command, guesses)?;
        seed = next;
    }
    Ok(())
}

/// Does commands, and tells what the core answered to each that is not random.
pub fn call_all<B: Bodies>(
    core: &mut Core<Keep>,
    bodies: &B,
    commands: &[Command],
) -> Result<Vec<Step>, AllocError>
    requires graph { B.graph bodies.now ≡ core.old.shape }
    ensures plan { KeepsPlan core.old core.new }
{
    let alloc = core.allocator();
    let mut guesses = Vec::new(alloc);
    let mut steps = Vec::new(alloc);
    for command in commands {
        match command {
            Command::Random { seed, count } => random(core, bodies, *seed, *count, &mut guesses)?,
            _ => steps.push(call(core, bodies, *command, &mut guesses)?)?,
        }
    }
    Ok(steps)
}
