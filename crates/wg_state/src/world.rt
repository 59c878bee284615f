use wg_words::{Items, WordLists, Words};

/// Who asks for how many records, and where: an increment has no handle, and a group request's lane is 0.
#[derive(Clone, Copy, Debug, PartialEq, Eq)]
pub struct Request {
    pub handle: Option<u32>,
    pub lane: u32,
    pub output: u32,
    pub element: u32,
    pub amount: u32,
}

/// What a request was granted: who asked for it and where, the words of each record, and whether its handle is closed.
#[derive(Debug, Drop)]
pub struct Grant {
    pub handle: Option<u32>,
    pub lane: u32,
    pub output: u32,
    pub element: u32,
    pub complete: bool,
    pub items: WordLists,
}

/// What the lanes of a launch share: groupshared variables and input records, each by its words; the grants in the
/// order of their requests; what is left of each budget; the denied requests; and the buffers.
#[derive(Debug, Drop)]
pub struct World {
    pub shared: WordLists,
    pub inputs: WordLists,
    pub grants: Items<Grant>,
    pub left: Words,
    pub denied: u32,
    pub buffers: WordLists,
}
