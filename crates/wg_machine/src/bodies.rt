ghost use Rattle.std.specs.Prelude.{◌≡◌, ℕ, Bool, IsTrue, IfOk, OnOk, IsErrOf, IfSome};
ghost use Rattle.wg_machine.specs.declared.shape.Shape.{Shape as Graph};
ghost use Rattle.wg_machine.specs.declared.launch.Launch.{Launch as Launched};
ghost use Rattle.wg_machine.specs.declared.bodies.Halt.TheVariants.{Turns};
ghost use Rattle.wg_machine.specs.declared.bodies.Halt.TheVariants as halt;
ghost use Rattle.wg_machine.specs.Buffers.{Buffers};
ghost use Rattle.wg_machine.specs.Effects.{Grows};
ghost use Rattle.wg_machine.specs.GoodShape.{IsGoodShape};
ghost use Rattle.wg_machine.specs.LaunchMeaning.{Meaning, FitsShape, Makes, Spends, HasNewWords, KeepsLaws};
ghost use Rattle.wg_machine.specs.Units.{shared_at, words_at};

use crate::{Launch, Made, Memory, Shape};
use std::alloc::AllocError;

/// Why a launch did not end: it spent its turns, or there was no memory.
#[derive(Clone, Copy, Debug, PartialEq, Eq)]
pub enum Halt {
    Turns,
    Memory,
}

impl From<AllocError> for Halt {
    ghost from_gives = { λ _ h. h ≡ halt.Memory };

    fn from(_: AllocError) -> Halt {
        Halt::Memory
    }
}

/// The bodies of a graph's nodes, by what their launches do.
pub trait Bodies {
    /// The shape of the graph.
    ghost graph: { Self → Graph };

    /// What a launch does to the buffers within a number of turns.
    ghost made: { Self → Meaning };

    /// Whether no launch reads a shared buffer.
    ghost quiet: { Self → Bool };

    fn shape(&self) -> &Shape
        ensures { result.now ≡ graph self.now };

    /// Runs a launch over a memory. After an error the memory is only dropped.
    fn launch<M: Memory>(&self, launch: &Launch, mem: &mut M, turns: u64) -> Result<Made, Halt>
        requires good { IsGoodShape (graph self.now) }
        requires fits { FitsShape (graph self.now) launch.now }
        ensures grows { OnOk result (Grows (M.trace mem.old) (M.trace mem.new)) }
        ensures makes { IfOk result (Makes (made self.now) launch.now turns (M.trace mem.old) (M.trace mem.new)) }
        ensures grows_when_spent { IsErrOf result Turns → Grows (M.trace mem.old) (M.trace mem.new) }
        ensures shares { IfOk result (λ m. HasNewWords (shared_at (graph self.now) launch.now.unit) (words_at (graph self.now) launch.now.unit) m.shared) }
        ensures spends { IsErrOf result Turns → Spends (made self.now) launch.now turns (M.trace mem.old) (M.trace mem.new) }
        ensures silent { IsTrue (quiet self.now) → OnOk result ((M.trace mem.new).log ≡ (M.trace mem.old).log) }
        ensures silent_when_spent { IsTrue (quiet self.now) → IsErrOf result Turns → (M.trace mem.new).log ≡ (M.trace mem.old).log };

    /// A launch that is not spent keeps to the laws of a launch.
    ghost lawful: { (b : Self) (l : Launched) (m : Buffers) (t : ℕ) → IsGoodShape (graph b) → FitsShape (graph b) l → IfSome (made b l m t) (KeepsLaws (graph b) l m t) };
}
