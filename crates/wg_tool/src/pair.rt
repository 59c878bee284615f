use std::alloc::{AllocError, Global};
use wg_words::{Items, Name, Word};

/// The pairs of lines of a graph of the first form, in order of the text.
pub type Pairs = Items<Pair>;

/// A pair of lines: a thread node of records of one word.
#[derive(Debug, Drop)]
pub struct Pair {
    pub name: Name,
    pub sends: Option<Sends>,
}

/// What a node sends: one record, its own with a word added, to the node of a later pair.
#[derive(Debug, Drop)]
pub struct Sends {
    pub target: Name,
    pub add: Word,
}

/// The line that each graph of the first form begins with.
pub const STRUCT_LINE: &[u8] = b"struct R { uint n; };\n";

pub const PAIR_HEAD: &[u8] = b"[Shader(\"node\")] [NodeLaunch(\"thread\")]\nvoid ";

pub const INPUT: &[u8] = b"(ThreadNodeInputRecord<R> i";

pub const QUIET: &[u8] = b") { }\n";

pub const OPENS: &[u8] = b", [MaxRecords(1)] NodeOutput<R> ";

pub const REQUESTS: &[u8] = b") { ThreadNodeOutputRecords<R> o = ";

pub const ADDS: &[u8] = b".GetThreadNodeOutputRecords(1); o.Get().n = i.Get().n + ";

pub const ENDS: &[u8] = b"; o.OutputComplete(); }\n";

pub const MOST_PAIRS: usize = 32;
