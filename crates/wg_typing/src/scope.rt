use sqlite_items::{Boxed, Items};
use wg_tree::{Direction, Named};
use wg_typed::{ConstValue, TypeTree, TypedBufferType, TypedExpr, TypedStep};
use wg_words::{Name, Place, Words};

/// What a name with methods or elements of its own stands for.
#[derive(Clone, Copy, Debug, PartialEq, Eq)]
pub enum Object {
    Buffer {
        buffer: u32,
        of: TypedBufferType,
    },
    /// An input: whether it holds several records, its record type unless it is empty, whether its words can be changed, and
    /// whose they are.
    Input {
        many: bool,
        record: Option<u32>,
        standing: Standing,
        sharing: Sharing,
    },
    /// An output, or an array of outputs, of which each element is an output.
    Output {
        output: u32,
        array: bool,
        record: Option<u32>,
    },
    Handle {
        handle: u32,
        record: u32,
    },
}

/// A parameter of a plain function.
#[derive(Clone, Copy, Debug, PartialEq, Eq)]
pub struct FormalParameter {
    pub direction: Direction,
    pub of: TypeTree,
}

/// What a declared name stands for.
#[derive(Drop)]
pub enum Meant {
    Struct {
        number: u32,
    },
    /// A static constant; a scalar one has a value.
    Constant {
        of: TypeTree,
        words: Words,
        value: Option<ConstValue>,
    },
    Shared {
        variable: u32,
        of: TypeTree,
    },
    /// A variable of the function around: a parameter that is no object, or a local.
    Variable {
        variable: u32,
        of: TypeTree,
        constant: bool,
    },
    Object {
        object: Object,
    },
    /// A function, with the number of functions of the longest chain of calls from it.
    Function {
        number: u32,
        entry: bool,
        result: Option<TypeTree>,
        parameters: Items<FormalParameter>,
        chain: u32,
    },
    /// The function in which it stands.
    Itself,
    /// Its declaration is broken: it has no type.
    Broken,
}

#[derive(Drop)]
pub struct Declared {
    pub name: Named,
    pub meant: Meant,
}

/// Whether a value can be assigned: it cannot, it can, or it can and stands in groupshared words or in a structured buffer.
#[derive(Clone, Copy, Debug, PartialEq, Eq)]
pub enum Standing {
    Fixed,
    Own,
    Memory,
}

/// Whose the words of an input are: the launch's own copy, or the record's, which all its groups share. The last group is
/// told where the struct is marked for it, which is then tracked.
#[derive(Clone, Copy, Debug, PartialEq, Eq)]
pub enum Sharing {
    Copied,
    Shared,
    Tracked,
}

/// What a call does that has no value where it stands by itself.
#[derive(Drop)]
pub enum Act {
    Step {
        step: Boxed<TypedStep>,
    },
    Barrier {
        syncs: bool,
    },
    Request {
        group: bool,
        output: u32,
        record: u32,
        element: Option<Boxed<TypedExpr>>,
        amount: Boxed<TypedExpr>,
    },
    Increment {
        group: bool,
        output: u32,
        element: Option<Boxed<TypedExpr>>,
        amount: Boxed<TypedExpr>,
    },
    Complete {
        handle: u32,
    },
    /// `FinishedCrossGroupSharing()`; `tracked` where the struct is marked for it.
    Finished {
        tracked: bool,
    },
}

/// What an expression is in which no rule is broken. An output that is an element of an array has that element's index. An
/// act has the place of the called name.
#[derive(Drop)]
pub enum Value {
    Typed {
        of: TypeTree,
        standing: Standing,
        tree: Boxed<TypedExpr>,
    },
    Object {
        object: Object,
        element: Option<Boxed<TypedExpr>>,
    },
    Act {
        name: Place,
        act: Act,
    },
    Text {
        bytes: Name,
    },
}
