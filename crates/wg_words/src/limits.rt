//! The limits of this project, by the names that code and definitions share. `MOST_X` may be reached, and `X_BOUND` may not.
//! A definition or a proof imports them from `Rattle.wg_words.specs.declared.limits.TheConstants`.

// ---- texts and files

/// Bytes of a text of HLSL.
pub const MOST_TEXT_BYTES: usize = 1_048_576;

/// Bytes of a file with a graph or a script.
pub const MOST_FILE_BYTES: u64 = 67_108_864;

/// Bytes of a file with a journal.
pub const MOST_JOURNAL_BYTES: u64 = 268_435_456;

/// Lines of a script that enter a record.
pub const MOST_ENTRIES: usize = 1_000_000;

// ---- what a text declares

/// Node functions of a text.
pub const MOST_NODES: usize = 256;

/// Output parameters of a node.
pub const MOST_OUTPUTS: usize = 64;

/// Records that `MaxRecords` may give.
pub const MOST_RECORDS: u32 = 256;

/// Elements that `NodeArraySize` may give.
pub const MOST_ELEMENTS: usize = 256;

/// Words of a record.
pub const MOST_RECORD_WORDS: u32 = 2048;

/// Words of any type.
pub const MOST_TYPE_WORDS: u32 = 8192;

/// Words of the locals of one function.
pub const MOST_LOCAL_WORDS: u32 = 8192;

/// Words of all that a text declares `groupshared`.
pub const MOST_SHARED_WORDS: u32 = 8192;

/// Threads of a group.
pub const MOST_LANES: u32 = 1024;

/// Groups along one axis of a declared grid.
pub const MOST_AXIS_GROUPS: u32 = 65_535;

/// Groups of a declared grid stay below this.
pub const GRID_BOUND: u32 = 16_777_216;

/// What `NodeMaxRecursionDepth` may give.
pub const MOST_RECURSION_DEPTH: u32 = 31;

/// Statements inside one another.
pub const MOST_STATEMENT_NESTING: usize = 64;

/// Expressions inside one another.
pub const MOST_EXPRESSION_NESTING: usize = 64;

/// Functions of a chain of calls.
pub const MOST_CALL_CHAIN: usize = 16;

/// Weight of the code of an entry function.
pub const MOST_CODE_WEIGHT: u32 = 65_536;

// ---- graphs

/// Units of a graph: each node at each of its levels, from 0 to the depth.
pub const MOST_UNITS: usize = 8192;

/// Units of a chain, each a target of the one before.
pub const MOST_UNIT_CHAIN: usize = 32;

/// Records that one launch sends: those of all outputs, each with its budget.
pub const MOST_SENT: usize = 16_384;

/// Bytes of a record's slot.
pub const MOST_STRIDE: u32 = 8192;

/// Buffers of a graph.
pub const MOST_BUFFERS: usize = 64;

/// Words of one buffer.
pub const MOST_BUFFER_WORDS: u32 = 4_194_304;

/// Words of all buffers together.
pub const MOST_ALL_BUFFER_WORDS: u32 = 16_777_216;

// ---- runs

/// Bytes of a plan.
pub const MOST_PLAN_BYTES: u64 = 1_073_741_824;

/// Turns that a launch may be given.
pub const MOST_TURNS: u64 = 1_000_000_000;

/// Turns of a launch where no number is given.
pub const DEFAULT_TURNS: u64 = 65_536;

/// Launches that a run may be given.
pub const MOST_LAUNCHES: u64 = 10_000_000;

/// Launches of a run where no number is given.
pub const DEFAULT_LAUNCHES: u64 = 1_000_000;

/// Workers of a run.
pub const MOST_WORKERS: u32 = 64;

/// Workers of a run where no number is given.
pub const DEFAULT_WORKERS: u32 = 1;

const _: () = prove!(MOST_SENT == MOST_OUTPUTS * MOST_RECORDS as usize);
