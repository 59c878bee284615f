ghost use Rattle.std.specs.Prelude.{◌≡◌, ◌≢◌, ◌<◌, ◌≤◌, ◌+◌, ◌^◌, ◌↔◌, [], length, IfNone, IfOk, IfSome, IsOk, IsTrue, List, None, OnErr, OnOk, Some};
ghost use Rattle.std.specs.Option.{ForSome};
ghost use Rattle.wg_words.specs.Each.{Each};
ghost use Rattle.wg_machine.specs.declared.launch.Entry.{Entry as Line};
ghost use Rattle.wg_machine.specs.declared.launch.Sent.{Sent as SentOf};
ghost use Rattle.wg_machine.specs.Buffers.{Buffers as AllWords};
ghost use Rattle.wg_machine.specs.GoodShape.{IsGoodShape};
ghost use Rattle.wg_machine.specs.LaunchMeaning.{KeepsLaws, Meaning};
ghost use Rattle.wg_guess.specs.Guesses.{IsTrueOf};
ghost use Rattle.wg_standing.specs.declared.pending.Pending.{Pending};
ghost use Rattle.wg_standing.specs.Idle.{IsOut, SomeIsOut};
ghost use Rattle.wg_standing.specs.Moves.{with_kept};
ghost use Rattle.wg_standing.specs.Standing.{IsPlaced, StandsFor};

use crate::keeping::{Keeping, Out};
use crate::report::{Report, end_of, without_tail};
use crate::stepping::{Effect, Halted, Spent, told_by};
use std::alloc::{AllocError, Global};
use std::marker::Model;
use wg_buffers::Buffers;
use wg_guess::{Guess, guess};
use wg_machine::{Bodies, Launch, Limits, Made, Writes, few_are_sent};
use wg_standing::{
    beginnings_place, keepings_place, keepings_stand, never_blocked, openings_place,
    openings_stand, outs_fit, settlings_place, settlings_stand, stoppings_stand,
};
use wg_words::TryCopy;

/// What `open` answers.
#[derive(Debug, Drop)]
pub enum Opened {
    Launch(Out),
    /// A launch is out, and until one settles nothing more can be opened.
    NotNow,
    /// Nothing is left to run.
    Idle,
    /// The journal has as many launches as the limit.
    LaunchesSpent,
    /// A launch was spent before.
    Stopped,
    Memory,
}

/// What `settle` answers.
#[derive(Debug, Drop)]
pub enum Settled {
    /// The guess was of the launch as it is now, and made its step.
    Kept,
    /// The launch was run, and made its step.
    Redone,
    /// The launch spent its turns. The core is stopped.
    TurnsSpent(Launch),
    NotOut,
    /// A launch was spent before.
    Stopped,
    Memory,
}

/// A machine on its way through a script.
#[derive(Drop)]
pub struct Core<K: Keeping + Drop> {
    alloc: Global,
    keep: K,
    buffers: Buffers,
    denied: u64,
    peak: u64,
    kept: u64,
    spent: Option<Spent>,
}

impl<K: Keeping + Drop> Model for Core<K> {
    ghost use Rattle.wg_standing.specs.Core.{CoreView};

    ghost Value = { CoreView };

    ghost use Rattle.wg_engine.specs.Inside.{IsSoundCore, core_of};

    ghost view = { λ c. core_of (K.seen c.keep) c.buffers c.denied c.peak c.kept c.spent };

    ghost invariant = { λ c. IsSoundCore (core_of (K.seen c.keep) c.buffers c.denied c.peak c.kept c.spent) c.spent };
}

impl<K: Keeping + Drop> Core<K> {
    ghost use Rattle.wg_engine.specs.Tables.{KeepsOrWants, Opens, Settles};
    ghost use Rattle.wg_engine.specs.Calls.{IsFirstOut};
    ghost use Rattle.wg_engine.specs.Ending.{IsReport};
    ghost use Rattle.wg_engine.specs.Effects.{CanStep, Finds, Runs, StepsTo, Takes};
    ghost use Rattle.wg_engine.specs.Inside.{IsBegun, IsStopped};
    ghost use Rattle.wg_engine.specs.Serving.{IsServing, Serves};

    /// A core at the start of a script, by its keep and the buffers of the script.
    pub fn begin(alloc: Global, keep: K, buffers: Buffers) -> Core<K>
        requires begun { IsBegun (K.seen keep) }
        requires many { length buffers ≡ length (K.seen keep).shape.buffers }
        ensures begun { result ≡ record (K.seen keep) { buffers = buffers } }
    {
        beginnings_place();
        Core {
            alloc,
            keep,
            buffers,
            denied: 0,
            peak: 0,
            kept: 0,
            spent: None,
        }
    }

    /// What holds of every core: its shape is good, its records are in their places, and it has a buffer for each of the shape.
    pub fn keeps_laws(&self)
        ensures good { IsGoodShape self.now.shape }
        ensures placed { IsPlaced self.now self.now.bag }
        ensures buffers { length self.now.buffers ≡ length self.now.shape.buffers }
        ensures stopped_is_out { IfSome self.now.stopped (SomeIsOut self.now) }
    {
        // A use of a field tells the proof what its model keeps.
        let _ = &self.alloc;
    }

    /// The allocator of a core's memory.
    pub fn allocator(&self) -> Global {
        self.alloc
    }

    /// The least ticket that is out.
    pub fn first_out(&self) -> Option<u64>
        ensures some { IfSome result (IsFirstOut self.now.outs) }
        ensures none { IfNone result (self.now.outs ≡ []) }
    {
        self.keep.first_out()
    }

    /// The number of launches out.
    pub fn out_count(&self) -> u64
        ensures { result ≡ length self.now.outs }
    {
        self.keep.out_count()
    }

    /// The number of settlings that kept a guess.
    pub fn kept(&self) -> u64
        ensures value { result ≡ self.now.kept }
        ensures few { result ≤ length self.now.journal }
    {
        self.kept
    }

    pub fn buffers(&self) -> &Buffers
        ensures { result.now ≡ self.now.buffers }
    {
        &self.buffers
    }

    /// The number of launches in the journal.
    pub fn length(&self) -> u64
        ensures { result ≡ length self.now.journal }
    {
        self.keep.length()
    }

    pub fn limits(&self) -> &Limits
        ensures { result.now ≡ self.now.limits }
    {
        self.keep.limits()
    }

    /// What the run came to. It takes no memory.
    pub fn finish(self) -> Report
        ensures report { IsReport self result }
        ensures outs { Each (λ (e : Line). e.first_out + e.outs ≤ self.next) result.journal.entries }
        ensures records_fit { self.next < 2 ^ 64 }
    {
        let Core {
            alloc,
            keep,
            buffers,
            denied,
            peak,
            kept: _,
            spent,
        } = self;
        let end = end_of(&keep, spent);
        let records = keep.next();
        let bytes = keep.planned();
        let limits = *keep.limits();
        Report {
            journal: without_tail(alloc, keep.into_journal()),
            records,
            denied,
            peak,
            bytes,
            end,
            limits,
            buffers,
        }
    }

    /// Opens the launch that comes next. `Memory` changes nothing.
    pub fn open(&mut self) -> Opened
        ensures opens { Opens self.old self.new result }
        ensures stands { (made : Meaning) (script : List SentOf) (start_buffers : AllWords)
            → StandsFor made script start_buffers self.old → StandsFor made script start_buffers self.new }
    {
        openings_stand();
        self.keeps_laws();
        self.opened()
    }

    fn opened(&mut self) -> Opened
        ensures { Opens self.old self.new result }
    {
        openings_place();
        never_blocked();
        if self.spent.is_some() {
            return Opened::Stopped;
        }
        if self.keep.is_idle() {
            return Opened::Idle;
        }
        let out = self.keep.out_count();
        if self.keep.length() + out >= self.keep.limits().launches {
            if out == 0 {
                return Opened::LaunchesSpent;
            }
            return Opened::NotNow;
        }
        match self.keep.open() {
            Err(_) => Opened::Memory,
            Ok(Some(launch)) => Opened::Launch(launch),
            Ok(None) => {
                if out == 0 {
                    unreachable!();
                }
                Opened::NotNow
            }
        }
    }

    /// Makes the step of the launch of a ticket, whichever others are out: by a guess that is of the launch as it is now
    /// and agrees with the buffers, else by running it. After `Memory` the launch is still out.
    pub fn settle<B: Bodies>(&mut self, bodies: &B, ticket: u64, guess: Option<Guess>) -> Settled
        requires graph { B.graph bodies.now ≡ self.old.shape }
        requires truth { ForSome guess (IsTrueOf (B.graph bodies.now) (B.made bodies.now) self.old.limits.turns) }
        ensures settles { Settles (B.made bodies.now) self.old self.new ticket guess result }
        ensures serving { (before : List Pending) (o : Pending) (later : List Pending) → IsOut self.old ticket before o later
            → self.old.stopped ≡ None → Serves self.old o guess → KeepsOrWants guess result }
        ensures stands { (script : List SentOf) (start_buffers : AllWords)
            → StandsFor (B.made bodies.now) script start_buffers self.old → StandsFor (B.made bodies.now) script start_buffers self.new }
    {
        outs_fit();
        settlings_stand();
        keepings_stand();
        stoppings_stand();
        self.keeps_laws();
        self.settled(bodies, ticket, guess)
    }

    fn settled<B: Bodies>(&mut self, bodies: &B, ticket: u64, guess: Option<Guess>) -> Settled
        requires graph { B.graph bodies.now ≡ self.old.shape }
        requires truth { ForSome guess (IsTrueOf (B.graph bodies.now) (B.made bodies.now) self.old.limits.turns) }
        ensures { Settles (B.made bodies.now) self.old self.new ticket guess result }
    {
        outs_fit();
        if self.spent.is_some() {
            return Settled::Stopped;
        }
        if !self.keep.is_out(ticket) {
            return Settled::NotOut;
        }
        match self.effect(bodies, ticket, guess) {
            Err(Halted::Memory) => Settled::Memory,
            Err(Halted::Turns(launch)) => match self.stop(ticket, launch) {
                Ok(launch) => Settled::TurnsSpent(launch),
                Err(_) => Settled::Memory,
            },
            Ok(effect) => self.take(ticket, effect),
        }
    }

    // What the launch of a ticket makes with the buffers now: by the guess if it serves, else by running it.
    fn effect<B: Bodies>(
        &self,
        bodies: &B,
        ticket: u64,
        guess: Option<Guess>,
    ) -> Result<Effect, Halted>
        requires graph { B.graph bodies.now ≡ self.now.shape }
        requires truth { ForSome guess (IsTrueOf (B.graph bodies.now) (B.made bodies.now) self.now.limits.turns) }
        requires out { SomeIsOut self.now ticket }
        ensures { (before : List Pending) (o : Pending) (later : List Pending) → IsOut self.now ticket before o later
            → Finds (B.made bodies.now) self.now o guess result }
    {
        let Some(guess) = guess else {
            return self.run(bodies, ticket);
        };
        if self.serves(ticket, &guess) {
            return Ok(told_by(guess));
        }
        self.run(bodies, ticket)
    }

    // Whether a guess is of the launch of a ticket as it is now, is not spent, and agrees with the buffers.
    fn serves(&self, ticket: u64, guess: &Guess) -> bool
        requires out { SomeIsOut self.now ticket }
        requires many { length guess.now.lengths ≡ length self.now.shape.buffers }
        ensures { (before : List Pending) (o : Pending) (later : List Pending) → IsOut self.now ticket before o later
            → IsTrue result ↔ IsServing self.now o guess.now }
    {
        self.keeps_laws();
        !guess.spent() && self.keep.is_now(ticket, guess.launch()) && guess.agrees(&self.buffers)
    }

    // Runs the launch of a ticket over the buffers, which stay as they are.
    fn run<B: Bodies>(&self, bodies: &B, ticket: u64) -> Result<Effect, Halted>
        requires graph { B.graph bodies.now ≡ self.now.shape }
        requires out { SomeIsOut self.now ticket }
        ensures { (before : List Pending) (o : Pending) (later : List Pending) → IsOut self.now ticket before o later
            → Runs (B.made bodies.now) self.now o result }
    {
        outs_fit();
        let Ok(launch) = self.keep.launch(ticket) else {
            return Err(Halted::Memory);
        };
        let turns = self.keep.limits().turns;
        let Ok(guess) = guess(self.alloc, bodies, launch, &self.buffers, turns) else {
            return Err(Halted::Memory);
        };
        let (launch, answer, writes) = guess.parts();
        match answer {
            None => Err(Halted::Turns(launch)),
            Some(made) => Ok(Effect {
                made,
                writes,
                kept: false,
            }),
        }
    }

    // Stops at the launch of a ticket, of which the core keeps a copy.
    fn stop(&mut self, ticket: u64, launch: Launch) -> Result<Launch, AllocError>
        requires { IsStopped self.old (record { ticket = ticket; launch = launch }) }
        ensures launch { IfOk result (λ l. l ≡ launch) }
        ensures stopped { OnOk result (self.new ≡ record self.old { stopped = Some ticket }) }
        ensures same { OnErr result (self.new ≡ self.old) }
    {
        let copy = launch.copy(self.alloc)?;
        self.spent = Some(Spent {
            ticket,
            launch: copy,
        });
        Ok(launch)
    }

    // Makes the step of the launch of a ticket by its effect, and counts the guess where one was kept.
    fn take(&mut self, ticket: u64, effect: Effect) -> Settled
        requires free { self.old.stopped ≡ None }
        requires can { CanStep self.old ticket effect.made effect.writes }
        ensures { Takes self.old self.new ticket effect result }
    {
        let Effect { made, writes, kept } = effect;
        let Ok(()) = self.step(ticket, made, writes) else {
            return Settled::Memory;
        };
        if kept {
            self.count();
            return Settled::Kept;
        }
        Settled::Redone
    }

    // Makes the step of the launch of a ticket by what it made and its writes.
    fn step(&mut self, ticket: u64, made: Made, writes: Writes) -> Result<(), AllocError>
        requires free { self.old.stopped ≡ None }
        requires can { CanStep self.old ticket made writes }
        ensures steps { OnOk result (StepsTo self.old self.new ticket made writes) }
        ensures fewer { OnOk result (self.new.kept < length self.new.journal) }
        ensures same { OnErr result (self.new ≡ self.old) }
        ensures unwritten { writes ≡ [] → IsOk result }
    {
        settlings_place();
        few_are_sent();
        outs_fit();
        self.buffers.apply(self.alloc, writes.as_slice())?;
        let denied = u64::from(made.denied);
        self.keep.settle(ticket, made);
        self.denied += denied;
        self.peak = self.peak.max(self.keep.bytes());
        Ok(())
    }

    fn count(&mut self)
        requires { self.old.kept < length self.old.journal }
        ensures { self.new ≡ with_kept self.old }
    {
        keepings_place();
        self.kept += 1;
    }
}
