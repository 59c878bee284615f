ghost use Rattle.std.specs.Prelude.{◌≡◌, ◌≢◌, ◌<◌, ◌∷◌, ◌++◌, [], IfErr, IfOk, IfSome, IsErrOf, IsTrue, List, None, OnOk};
ghost use Rattle.wg_machine.specs.declared.launch.Sent.{Sent as SentOf};
ghost use Rattle.wg_machine.specs.Buffers.{Buffers as AllWords};
ghost use Rattle.wg_machine.specs.LaunchMeaning.{Meaning};
ghost use Rattle.wg_guess.specs.Guesses.{IsTrueOf};
ghost use Rattle.wg_standing.specs.declared.pending.Pending.{Pending};
ghost use Rattle.wg_standing.specs.Standing.{StandsFor};
ghost use Rattle.wg_engine.specs.Calls.{told};
ghost use Rattle.wg_rounds.specs.declared.ahead.Ahead.{Ahead as AheadOf};
ghost use Rattle.wg_rounds.specs.Ahead.{FailsToOpen, FailsToSettle, IsAhead, IsFirst, IsOfFirst, OpensAhead, SettlesFirst};

use wg_engine::{Core, Keeping, Opened, Out, Settled};
use wg_guess::{Guess, guess};
use wg_machine::Bodies;
use wg_standing::outs_fit;

/// A launch out, by its ticket, with the guess that was made of it.
#[derive(Drop)]
pub struct Ahead {
    pub ticket: u64,
    pub guess: Guess,
}

/// Why a run in rounds ended.
#[derive(Clone, Copy, Debug, PartialEq, Eq)]
pub enum Why {
    /// Nothing is left to run.
    Idle,
    /// The journal has as many launches as the limit, and something is left.
    LaunchesSpent,
    /// A launch spent its turns.
    TurnsSpent,
    Memory,
}

/// Opens the launch that comes next and guesses it. None where others are out and none comes next.
pub fn open_next<K: Keeping + Drop, B: Bodies>(
    core: &mut Core<K>,
    bodies: &B,
) -> Result<Option<Ahead>, Why>
    requires graph { B.graph bodies.now ≡ core.old.shape }
    requires free { core.old.stopped ≡ None }
    ensures opens { IfOk result (OpensAhead (B.made bodies.now) core.old core.new) }
    ensures fails { IfErr result (FailsToOpen core.old core.new) }
    ensures quiet { IsTrue (B.quiet bodies.now) → IfOk result (λ next. IfSome next (λ (a : AheadOf). a.guess.log ≡ [])) }
    ensures stands { (made : Meaning) (script : List SentOf) (start_buffers : AllWords)
        → StandsFor made script start_buffers core.old → StandsFor made script start_buffers core.new }
{
    match core.open() {
        Opened::Launch(out) => match guess_of(core, bodies, out) {
            Ok(ahead) => Ok(Some(ahead)),
            Err(why) => Err(why),
        },
        Opened::NotNow => Ok(None),
        Opened::Idle => Err(Why::Idle),
        Opened::LaunchesSpent => Err(Why::LaunchesSpent),
        Opened::Memory => Err(Why::Memory),
        Opened::Stopped => unreachable!(),
    }
}

// Guesses a launch that is out, over the buffers of the core.
fn guess_of<K: Keeping + Drop, B: Bodies>(
    core: &Core<K>,
    bodies: &B,
    out: Out,
) -> Result<Ahead, Why>
    requires graph { B.graph bodies.now ≡ core.now.shape }
    requires out { (before : List Pending) × (o : Pending) × (later : List Pending) × (core.now.outs ≡ before ++ o ∷ later) × (out ≡ told core.now o) }
    ensures ahead { (o : Pending) → out ≡ told core.now o → IfOk result (IsAhead (B.made bodies.now) core.now o) }
    ensures quiet { IsTrue (B.quiet bodies.now) → IfOk result (λ ahead. ahead.guess.log ≡ []) }
    ensures fails { IfErr result (λ why. why ≡ Why.Memory) }
{
    core.keeps_laws();
    outs_fit();
    let Out { ticket, launch } = out;
    let turns = core.limits().turns;
    match guess(core.allocator(), bodies, launch, core.buffers(), turns) {
        Ok(guess) => Ok(Ahead { ticket, guess }),
        Err(_) => Err(Why::Memory),
    }
}

/// Settles the launch that is out first by the guess that was made of it.
pub fn settle_next<K: Keeping + Drop, B: Bodies>(
    core: &mut Core<K>,
    bodies: &B,
    next: Ahead,
) -> Result<(), Why>
    requires graph { B.graph bodies.now ≡ core.old.shape }
    requires free { core.old.stopped ≡ None }
    requires first { IsFirst core.old next.ticket }
    requires truth { IsTrueOf (B.graph bodies.now) (B.made bodies.now) core.old.limits.turns next.guess }
    ensures settles { OnOk result (SettlesFirst (B.made bodies.now) core.old core.new) }
    ensures keeps { IsOfFirst core.old next → OnOk result (core.old.kept < core.new.kept) }
    ensures fails { IfErr result (FailsToSettle (B.made bodies.now) core.old core.new) }
    ensures stands { (script : List SentOf) (start_buffers : AllWords)
        → StandsFor (B.made bodies.now) script start_buffers core.old → StandsFor (B.made bodies.now) script start_buffers core.new }
{
    core.keeps_laws();
    outs_fit();
    let Ahead { ticket, guess } = next;
    match core.settle(bodies, ticket, Some(guess)) {
        Settled::Kept => Ok(()),
        Settled::Redone => Ok(()),
        Settled::TurnsSpent(_) => Err(Why::TurnsSpent),
        Settled::Memory => Err(Why::Memory),
        Settled::NotOut | Settled::Stopped => unreachable!(),
    }
}
