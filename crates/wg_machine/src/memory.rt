ghost use Rattle.std.specs.Prelude.{◌≡◌, length, IfOk, OnOk};
ghost use Rattle.wg_machine.specs.declared.memory.Write.TheVariants.{Set, Add};
ghost use Rattle.wg_machine.specs.Buffers.{Buffers, buffer_at, word_at};
ghost use Rattle.wg_machine.specs.Agreement.{Trace, AgreesWith};
ghost use Rattle.wg_machine.specs.Effects.{Reads, Writes as Wrote, Exchanges, OnlyLogs, OnlyWrites, LogsAndWrites};

use std::alloc::AllocError;
use wg_words::{Items, Word};

pub type ReadLog = Items<Seen>;

pub type Writes = Items<Write>;

/// An interlocked form of HLSL. `CompareExchange` serves `InterlockedCompareStore` too.
#[derive(Clone, Copy, Debug, PartialEq, Eq)]
pub enum Atomic {
    Min,
    MinSigned,
    Max,
    MaxSigned,
    And,
    Or,
    Xor,
    Add,
    Exchange,
    CompareExchange,
}

/// What is done to one word of a buffer. Outside the buffer nothing is done.
#[derive(Clone, Copy, Debug, PartialEq, Eq)]
pub enum Write {
    Set { buffer: u32, word: u32, value: Word },
    Add { buffer: u32, word: u32, value: Word },
}

/// A word that was read, with its value.
#[derive(Clone, Copy, Debug, PartialEq, Eq)]
pub struct Seen {
    pub buffer: u32,
    pub word: u32,
    pub value: Word,
}

/// Shared buffers to read. A word outside its buffer reads as 0.
pub trait View {
    /// The buffers, each a list of words.
    ghost buffers: { Self → Buffers };

    /// The words of a buffer; 0 of an unknown one.
    fn length(&self, buffer: u32) -> u32
        ensures { result ≡ length (buffer_at (buffers self.now) buffer) };

    fn word(&self, buffer: u32, word: u32) -> Word
        ensures { result ≡ word_at (buffers self.now) buffer word };
}

/// Shared buffers as a launch sees and changes them.
///
/// A call speaks of all start buffers that agree with what was read: its answer is that of the buffers now of each such
/// start. After want of memory it is only dropped.
pub trait Memory {
    /// What it was made over, what was read and what was written.
    ghost trace: { Self → Trace };

    /// The words of a buffer; 0 of an unknown one. It never changes.
    fn length(&self, buffer: u32) -> u32
        ensures { result ≡ length (buffer_at (trace self.now).over buffer) };

    fn load(&mut self, buffer: u32, word: u32) -> Result<Word, AllocError>
        ensures logs { OnOk result (OnlyLogs buffer word (trace self.old) (trace self.new)) }
        ensures value { IfOk result (Reads (trace self.old) (trace self.new) buffer word) };

    fn store(&mut self, buffer: u32, word: u32, value: Word) -> Result<(), AllocError>
        ensures writes { OnOk result (OnlyWrites (trace self.old) (trace self.new)) }
        ensures written { OnOk result (Wrote (trace self.old) (trace self.new) (Set buffer word value)) };

    /// The interlocked addition whose old value is unused.
    fn add(&mut self, buffer: u32, word: u32, value: Word) -> Result<(), AllocError>
        ensures writes { OnOk result (OnlyWrites (trace self.old) (trace self.new)) }
        ensures written { OnOk result (Wrote (trace self.old) (trace self.new) (Add buffer word value)) };

    /// Any interlocked form, with the old word as its answer.
    fn interlocked(
        &mut self,
        op: Atomic,
        buffer: u32,
        word: u32,
        compare: Word,
        value: Word,
    ) -> Result<Word, AllocError>
        ensures changes { OnOk result (LogsAndWrites buffer word (trace self.old) (trace self.new)) }
        ensures exchanged { IfOk result (Exchanges (trace self.old) (trace self.new) op buffer word compare value) };

    /// What it was made over agrees with it at every moment.
    ghost fits: { (m : Self) → AgreesWith (trace m) (trace m).over };
}
