use crate::part::NamedCall;
use sqlite_items::{Boxed, Items};
use wg_tree::Named;
use wg_typed::TypedExpr;
use wg_words::Place;

/// What is around a part of a function's body: the body of a loop; a block, or what a `for` begins with; or the branches
/// of an `if`, with its condition's typed form, where it has one, and whether the branches are blocks.
#[derive(Drop)]
pub enum Region {
    Loop,
    Block,
    Branch {
        test: Option<Boxed<TypedExpr>>,
        blocks: bool,
    },
}

/// What happens in a function, in the order of the text.
#[derive(Drop)]
pub enum Event {
    /// A local is declared, of so many words.
    Declares {
        name: Named,
        words: u64,
    },
    /// A handle is declared, with its number.
    Requested {
        name: Named,
        handle: u32,
    },
    /// `OutputComplete` is called on the handle of a number.
    Completed {
        handle: u32,
    },
    /// A collective statement, by the call that it is, in these parts of the body, the outermost first.
    Collective {
        call: Option<NamedCall>,
        path: Items<Region>,
    },
    /// The word `return`.
    Returns {
        place: Place,
    },
    /// A plain function is called, from which the longest chain of calls has so many functions.
    Calls {
        chain: u32,
    },
    /// A variable is assigned, or given to be changed, in whole or in part.
    Changes {
        variable: u32,
    },
}
