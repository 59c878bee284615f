ghost use Rattle.std.specs.Prelude.{◌≡◌, ◌<◌, ◌+◌, ◌↔◌, [], false, length, IfOk, IfNone, IfSome, IsTrue, List, None, OnErr};
ghost use Rattle.wg_machine.specs.Bytes.{plan_bytes};
ghost use Rattle.wg_standing.specs.declared.pending.Pending.{Pending};
ghost use Rattle.wg_standing.specs.Core.{CoreView};
ghost use Rattle.wg_standing.specs.Idle.{IsIdle, IsOut, SomeIsOut};
ghost use Rattle.wg_standing.specs.Moves.{slot_bytes};
ghost use Rattle.wg_standing.specs.Outs.{launch_now};
ghost use Rattle.wg_standing.specs.Standing.{IsNotOut};
ghost use Rattle.wg_engine.specs.Calls.{CanMake, IsFirstOut, MakesStep, OpensNext, SomeChoice};

use std::alloc::AllocError;
use wg_machine::{EntryList, Launch, Limits, Made, Shape};

/// A launch that is out, by its ticket.
#[derive(Debug, Drop)]
pub struct Out {
    pub ticket: u64,
    pub launch: Launch,
}

/// What waits, what is out and what has run: a core without its buffers and counts.
pub trait Keeping {
    /// The core, its buffers empty and its counts 0.
    ghost seen: { Self → CoreView };

    fn shape(&self) -> &Shape
        ensures { result.now ≡ (seen self.now).shape };

    fn limits(&self) -> &Limits
        ensures { result.now ≡ (seen self.now).limits };

    /// Whether nothing waits and nothing is out.
    fn is_idle(&self) -> bool
        ensures { IsTrue result ↔ IsIdle (seen self.now) };

    /// The number of launches in the journal.
    fn length(&self) -> u64
        ensures { result ≡ length (seen self.now).journal };

    fn out_count(&self) -> u64
        ensures { result ≡ length (seen self.now).outs };

    /// The least ticket that is out.
    fn first_out(&self) -> Option<u64>
        ensures some { IfSome result (IsFirstOut (seen self.now).outs) }
        ensures none { IfNone result ((seen self.now).outs ≡ []) };

    /// The number of the next record.
    fn next(&self) -> u64
        ensures { result ≡ (seen self.now).next };

    /// The bytes of the slots in use.
    fn bytes(&self) -> u64
        ensures { result ≡ slot_bytes (seen self.now).shape 0 (seen self.now).used };

    /// The bytes of all slots.
    fn planned(&self) -> u64
        ensures { result ≡ plan_bytes (seen self.now).shape (seen self.now).width };

    /// Opens the launch that comes next, if there is one, with all that its settling takes of memory.
    fn open(&mut self) -> Result<Option<Out>, AllocError>
        requires few { length (seen self.old).journal + length (seen self.old).outs < (seen self.old).limits.launches }
        ensures opens { IfOk result (OpensNext (seen self.old) (seen self.new)) }
        ensures some { OnErr result (SomeChoice (seen self.old)) }
        ensures same { OnErr result (seen self.new ≡ seen self.old) };

    fn is_out(&self, ticket: u64) -> bool
        ensures out { IsTrue result → SomeIsOut (seen self.now) ticket }
        ensures none { result ≡ false → IsNotOut ticket (seen self.now).outs };

    /// Whether a launch is that of a ticket, with the words and the `last` of now. It takes no memory.
    fn is_now(&self, ticket: u64, launch: &Launch) -> bool
        requires { SomeIsOut (seen self.now) ticket }
        ensures { (before : List Pending) (o : Pending) (later : List Pending) → IsOut (seen self.now) ticket before o later
            → IsTrue result ↔ (launch.now ≡ launch_now (seen self.now).shape (seen self.now).bag o) };

    /// The launch of a ticket, with the words and the `last` of now.
    fn launch(&self, ticket: u64) -> Result<Launch, AllocError>
        requires { SomeIsOut (seen self.now) ticket }
        ensures { (before : List Pending) (o : Pending) (later : List Pending) → IsOut (seen self.now) ticket before o later
            → IfOk result (λ launch. launch ≡ launch_now (seen self.now).shape (seen self.now).bag o) };

    /// Makes the step of the launch of a ticket by what it made. It takes no memory.
    fn settle(&mut self, ticket: u64, made: Made)
        requires { CanMake (seen self.old) ticket made }
        ensures { MakesStep (seen self.old) (seen self.new) ticket made };

    /// The launches that have run, in their order. It takes no memory.
    fn into_journal(self) -> EntryList
        ensures { result ≡ (seen self).journal };
}
