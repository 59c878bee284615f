use wg_machine::Kind;
use wg_words::{Items, Name};

/// The nodes of a text in their order, as their attributes say.
pub type NodesAttrs = Items<NodeAttrs>;

/// The outputs of a node, in the order of its parameters.
pub type OutputAttrs = Items<OutputAttr>;

/// What the attributes of a node say (DirectX-Specs, Work Graphs, "Shader function attributes").
///
/// `function` is its number among the functions of the text, `name` and `index` are its `NodeID`, `threads` the sizes of a
/// thread group, `recursion` its declared depth, and `input` the number of the parameter that is its input. It is `marked`
/// where it has `NodeIsProgramEntry`.
#[derive(Debug, Drop)]
pub struct NodeAttrs {
    pub function: u32,
    pub name: Name,
    pub index: u32,
    pub kind: Kind,
    pub threads: [u32; 3],
    pub marked: bool,
    pub recursion: Option<u32>,
    pub input: Option<u32>,
    pub outputs: OutputAttrs,
}

/// What the attributes of an output say (DirectX-Specs, Work Graphs, "Node output attributes").
///
/// `param` is the number of its parameter. Its records count against the budget of number `budget`, among the budgets of the
/// node in the order of the parameters that own one; `most` is that budget's `MaxRecords`. `name` and `index` are its
/// `NodeID`. It has `elements` nodes: those of an array, and 1 of any other output. It is `sparse` where they may be absent.
#[derive(Debug, Drop)]
pub struct OutputAttr {
    pub param: u32,
    pub budget: u32,
    pub most: u32,
    pub name: Name,
    pub index: u32,
    pub elements: u32,
    pub array: bool,
    pub sparse: bool,
}

/// Three sizes, one for each direction.
#[derive(Clone, Copy, Debug, PartialEq, Eq)]
pub struct Axes {
    pub x: u32,
    pub y: u32,
    pub z: u32,
}

/// A field that holds a record's grid (DirectX-Specs, Work Graphs, "SV_DispatchGrid"): its number, and how many directions it
/// has.
#[derive(Clone, Copy, Debug, PartialEq, Eq)]
pub struct GridField {
    pub field: usize,
    pub parts: u32,
}
