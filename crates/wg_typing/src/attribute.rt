use wg_tree::ObjectWord;

/// A launch mode (DirectX-Specs, Work Graphs, "Shader function attributes": `NodeLaunch`).
#[derive(Clone, Copy, Debug, PartialEq, Eq)]
pub enum Mode {
    Broadcasting,
    Coalescing,
    Thread,
}

/// An attribute by its name. A hint is `unroll`, `loop`, `branch` or `flatten`, which have no effect.
#[derive(Clone, Copy, Debug, PartialEq, Eq)]
pub enum AttributeName {
    Shader,
    NodeLaunch,
    NumThreads,
    DispatchGrid,
    MaxDispatchGrid,
    NodeId,
    ProgramEntry,
    MaxRecursionDepth,
    MaxRecords,
    MaxRecordsSharedWith,
    NodeArraySize,
    AllowSparseNodes,
    TrackSharing,
    Hint,
}

/// What a parameter of a node is. A handle is none, which the grammar refuses.
#[derive(Clone, Copy, Debug, PartialEq, Eq)]
pub enum ParameterKind {
    Value,
    Input { word: ObjectWord },
    Output { array: bool },
    Handle,
}
