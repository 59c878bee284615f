ghost use Rattle.std.specs.Prelude.{◌≡◌, IfOk, length};
ghost use Rattle.wg_machine.specs.GoodShape.{IsGoodShape};

use std::alloc::{AllocError, Global};
use wg_counters::{sheets, splits};
use wg_exchangers::forms;
use wg_machine::Shape;

/// The graphs that a row may name.
#[derive(Clone, Copy)]
pub enum Graph {
    /// A thread node whose records have one word, without outputs.
    Forms,
    /// A thread node at three levels; each but the last sends at most two records of one word to the next.
    Splits,
    /// A broadcasting node whose groups share records of two words, and which sends one such record to a coalescing node.
    Sheets,
}

/// The graph of a name.
pub fn graph_named(name: Option<&str>) -> Graph {
    match name {
        Some("splits") => Graph::Splits,
        Some("sheets") => Graph::Sheets,
        _ => Graph::Forms,
    }
}

/// The shape of a graph, which is good.
pub fn shape_of(alloc: Global, graph: Graph) -> Result<Shape, AllocError>
    ensures { IfOk result IsGoodShape }
{
    match graph {
        Graph::Forms => forms(alloc),
        Graph::Splits => splits(alloc),
        Graph::Sheets => sheets(alloc),
    }
}
