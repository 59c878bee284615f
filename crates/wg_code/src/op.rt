use sqlite_items::Items;
use wg_words::{Word, Words};

/// Operations, one after another.
pub type Ops = Items<Op>;

/// One operation. `value` of `Set` is a word; `from` and `to` are a fixed range; `op`, `which`, `buffer`, `output`, `handle` and
/// `function` are numbers in their tables; every other number is a register's.
#[derive(Drop)]
#[cycle(op)]
pub enum Op {
    /// A fixed word.
    Set {
        d: u32,
        value: Word,
    },
    Copy {
        d: u32,
        a: u32,
    },
    /// Inverted bits, `countbits`, `firstbithigh`, `firstbitlow`, `reversebits`.
    Unary {
        op: u32,
        d: u32,
        a: u32,
    },
    /// Sum, difference, product, quotients, remainders, shifts, bits, equal, less: on words of 32 bits.
    Binary {
        op: u32,
        d: u32,
        a: u32,
        b: u32,
    },
    /// A register of a range, by an index.
    LocalGet {
        d: u32,
        from: u32,
        to: u32,
        index: u32,
    },
    LocalPut {
        from: u32,
        to: u32,
        index: u32,
        a: u32,
    },
    /// A groupshared word of a range, by an index.
    SharedGet {
        d: u32,
        from: u32,
        to: u32,
        index: u32,
    },
    SharedPut {
        from: u32,
        to: u32,
        index: u32,
        a: u32,
    },
    /// An interlocked form on a groupshared word. The old word is left in `d`.
    SharedAtomic {
        op: u32,
        d: u32,
        from: u32,
        to: u32,
        index: u32,
        compare: u32,
        value: u32,
    },
    /// A word of an input record.
    InputGet {
        d: u32,
        input: u32,
        word: u32,
    },
    InputPut {
        input: u32,
        word: u32,
        a: u32,
    },
    /// `Count()`.
    InputCount {
        d: u32,
    },
    /// `GetRemainingRecursionLevels()`.
    Level {
        d: u32,
    },
    /// A number of the group, of the thread in its group or of the thread in the grid, by x, y, z; or the index in the group.
    System {
        d: u32,
        which: u32,
    },
    BufferGet {
        d: u32,
        buffer: u32,
        word: u32,
    },
    BufferPut {
        buffer: u32,
        word: u32,
        a: u32,
    },
    /// The interlocked addition whose old word is unused.
    BufferAdd {
        buffer: u32,
        word: u32,
        a: u32,
    },
    BufferAtomic {
        op: u32,
        d: u32,
        buffer: u32,
        word: u32,
        compare: u32,
        value: u32,
    },
    BufferLength {
        d: u32,
        buffer: u32,
    },
    /// `IsValid()`.
    Valid {
        d: u32,
        output: u32,
        element: u32,
    },
    /// A request of new records for a handle.
    Request {
        handle: u32,
        element: u32,
        amount: u32,
    },
    /// A request of records without words.
    Increment {
        output: u32,
        element: u32,
        amount: u32,
    },
    /// A word of a record of a handle: `word` is counted from `from`.
    RecordGet {
        d: u32,
        handle: u32,
        index: u32,
        from: u32,
        to: u32,
        word: u32,
    },
    RecordPut {
        handle: u32,
        index: u32,
        from: u32,
        to: u32,
        word: u32,
        a: u32,
    },
    /// `OutputComplete()`.
    Complete {
        handle: u32,
    },
    If {
        a: u32,
        yes: Ops,
        no: Ops,
    },
    /// The test is run; the loop ends where `a` is 0, else a turn is taken and the body and the step are run.
    Loop {
        test: Ops,
        a: u32,
        body: Ops,
        step: Ops,
    },
    Break,
    Continue,
    /// Calls a function: its arguments' registers, and those that its results are copied to.
    Call {
        function: u32,
        args: Words,
        results: Words,
    },
    /// The operators of `Binary` on numbers of 64 bits, each in two registers, the low word first. A comparison writes one word.
    Wide {
        op: u32,
        d: u32,
        a: u32,
        b: u32,
    },
    /// The operators of `Binary` on the low 16 bits of words; the result's other bits are 0.
    Half {
        op: u32,
        d: u32,
        a: u32,
        b: u32,
    },
    /// 1 in the launch of a record's last group, if the record is shared between groups; else 0.
    Last {
        d: u32,
    },
}
