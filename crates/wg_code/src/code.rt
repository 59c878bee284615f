use crate::op::Ops;
use sqlite_items::Items;
use wg_machine::Shape;
use wg_words::Word;

pub type Functions = Items<Function>;

pub type Handles = Items<Handle>;

pub type Parts = Items<Part>;

pub type NodeCodes = Items<NodeCode>;

/// A function: its parameters are its first registers, its results its last.
///
/// It calls only functions of a smaller `depth`.
#[derive(Drop)]
pub struct Function {
    pub params: u32,
    pub results: u32,
    pub registers: u32,
    pub depth: u32,
    pub body: Ops,
}

/// A handle of a node: the output of its requests, and whether the group has it or each lane its own.
#[derive(Clone, Copy, Debug, PartialEq, Eq)]
pub struct Handle {
    pub output: u32,
    pub group: bool,
}

/// A part of a node's code: run by all lanes in their order, by lane 0 alone, or chosen by lane 0's register `a`.
#[derive(Drop)]
#[cycle(part)]
pub enum Part {
    Lanes { body: Ops },
    First { body: Ops },
    Choose { a: u32, yes: Parts, no: Parts },
}

/// The code of a node: its threads in a group, each lane's registers, its handles and its parts in order.
#[derive(Drop)]
pub struct NodeCode {
    pub threads: [Word; 3],
    pub registers: u32,
    pub handles: Handles,
    pub parts: Parts,
}

/// Code before it is checked: a shape, the number of groupshared words, and the code of each node of the shape.
#[derive(Drop)]
pub struct RawCode {
    pub shape: Shape,
    pub shared: u32,
    pub functions: Functions,
    pub nodes: NodeCodes,
}
