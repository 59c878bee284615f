use std::alloc::{AllocError, Global};
use wg_words::{Items, Name, Names, TryCopy, Words};

pub type NodeNames = Items<NodeName>;

/// The unit to which each element of an output sends; none where it is absent, or is the node itself at level 0.
pub type Targets = Items<Option<u32>>;

pub type Outputs = Items<Output>;

pub type Units = Items<Unit>;

/// How a node is launched (Work Graphs, "Node types"), with the grid, or the greatest grid, of a broadcasting node.
#[derive(Clone, Copy, Debug, PartialEq, Eq)]
pub enum Kind {
    /// One record gives one thread.
    Thread,
    /// One thread group takes from 1 to `most` records.
    Coalescing {
        most: u32,
    },
    /// One record launches a fixed grid of thread groups.
    Grid {
        x: u32,
        y: u32,
        z: u32,
    },
    /// One record launches the grid that its `parts` words from `first` on hold, clipped to x, y, z.
    GridField {
        first: u32,
        parts: u32,
        x: u32,
        y: u32,
        z: u32,
    },
}

/// The name of a node, with its place in a node array.
#[derive(Debug, Drop)]
pub struct NodeName {
    pub name: Name,
    pub index: u32,
}

/// An output of a node: the budget that its records count against, their words, and its elements' targets.
#[derive(Debug, Drop)]
pub struct Output {
    pub budget: u32,
    pub words: u32,
    pub elements: Targets,
}

/// A node at one recursion level.
///
/// `depth` is the number of units of the longest chain that ends here, `words` those of its records, `stride` a
/// slot's bytes, `budgets` each budget's `MaxRecords`, `bools` the places of `bool` words. Where it is `shared`, the
/// groups of a record share its words, and each may change them.
#[derive(Debug, Drop)]
pub struct Unit {
    pub node: u32,
    pub level: u32,
    pub depth: u32,
    pub words: u32,
    pub stride: u32,
    pub kind: Kind,
    pub entry: bool,
    pub budgets: Words,
    pub outputs: Outputs,
    pub bools: Words,
    pub shared: bool,
}

/// A work graph: its nodes, their units in order, and the names of the shared buffers.
#[derive(Debug, Drop)]
pub struct Shape {
    pub nodes: NodeNames,
    pub units: Units,
    pub buffers: Names,
}

impl TryCopy for NodeName {
    fn copy(&self, alloc: Global) -> Result<Self, AllocError> {
        Ok(NodeName {
            name: self.name.copy(alloc)?,
            index: self.index,
        })
    }
}

impl TryCopy for Output {
    fn copy(&self, alloc: Global) -> Result<Self, AllocError> {
        Ok(Output {
            budget: self.budget,
            words: self.words,
            elements: Targets::from_slice(alloc, self.elements.as_slice())?,
        })
    }
}

impl TryCopy for Unit {
    fn copy(&self, alloc: Global) -> Result<Self, AllocError> {
        Ok(Unit {
            node: self.node,
            level: self.level,
            depth: self.depth,
            words: self.words,
            stride: self.stride,
            kind: self.kind,
            entry: self.entry,
            budgets: self.budgets.copy(alloc)?,
            outputs: self.outputs.copy(alloc)?,
            bools: self.bools.copy(alloc)?,
            shared: self.shared,
        })
    }
}

impl TryCopy for Shape {
    fn copy(&self, alloc: Global) -> Result<Self, AllocError> {
        Ok(Shape {
            nodes: self.nodes.copy(alloc)?,
            units: self.units.copy(alloc)?,
            buffers: self.buffers.copy(alloc)?,
        })
    }
}
