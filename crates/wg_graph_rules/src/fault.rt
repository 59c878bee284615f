ghost use Rattle.std.specs.Prelude.{◌≡◌};
ghost use Rattle.wg_graph_rules.specs.declared.fault.GraphFault.TheVariants.{Memory};

use std::alloc::AllocError;
use wg_words::Place;

/// The first rule on graphs that a text breaks (DirectX-Specs, Work Graphs; numbers and limits are this project's own), or that
/// memory is wanting. A `place` is that of a function's or of an output's name; `node` is a node's number in the order of the text.
#[derive(Clone, Copy, Debug, PartialEq, Eq)]
pub enum GraphFault {
    /// 501: the text has no node. It is told at the first byte.
    NoEntry,
    /// 502: two nodes of one name and index; the second function.
    TwoOfOneName { place: Place },
    /// 503: more than 256 nodes; the 257th function.
    TooManyNodes { place: Place },
    /// 504: an output that has no node, though it is not sparse; the parameter.
    NoTarget { place: Place },
    /// 505: the same of an element of an array; the parameter.
    SparseNotAllowed { place: Place },
    /// 506: an output whose records its target does not take; the parameter.
    RecordDiffers { place: Place },
    /// 507: a cycle, other than a node that targets itself under a declared depth; the first function that lies on one.
    Cycle { node: u32, place: Place },
    /// 508: a chain of more than 32 units; the first function at which one ends.
    ChainTooLong { node: u32, place: Place },
    Memory,
}

impl From<AllocError> for GraphFault {
    ghost from_gives = { λ _ fault. fault ≡ Memory };

    fn from(_: AllocError) -> Self {
        GraphFault::Memory
    }
}
