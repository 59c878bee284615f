/// The file that a word of the command names.
#[derive(Clone, Copy, Debug, PartialEq, Eq)]
pub enum Input {
    Graph,
    Script,
}

/// What the top call answers.
#[derive(Clone, Copy, Debug, PartialEq, Eq)]
pub enum Answer {
    Done,
    Refused,
    Usage,
    BadScript,
    ReadFault { input: Input },
    WriteFault,
    OutOfMemory,
    TooLong { input: Input },
}

pub const REFUSED: &[u8] = b"refused 900 NotBuilt line 1 column 1\n";

pub const BAD_SCRIPT: &[u8] = b"script 900 NotBuilt line 1\n";

pub const USAGE: &[u8] = b"usage: workgraph check, plan, run, pool, verify or gen\n";
