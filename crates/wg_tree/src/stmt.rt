use crate::expr::{Expr, Named, TypeName};
use sqlite_items::{Boxed, Items};
use wg_words::Place;

/// `[name]` or `[name(argument, ..)]`, with the place of its bracket.
#[derive(Drop)]
pub struct Attribute {
    pub place: Place,
    pub name: Named,
    pub arguments: Items<Expr>,
}

/// The word of an input, an output or a handle of records.
#[derive(Clone, Copy, Debug, PartialEq, Eq)]
pub enum ObjectWord {
    DispatchNodeInputRecord,
    RwDispatchNodeInputRecord,
    GroupNodeInputRecords,
    RwGroupNodeInputRecords,
    ThreadNodeInputRecord,
    RwThreadNodeInputRecord,
    EmptyNodeInput,
    NodeOutput,
    NodeOutputArray,
    EmptyNodeOutput,
    EmptyNodeOutputArray,
    ThreadNodeOutputRecords,
    GroupNodeOutputRecords,
}

/// An object's word, and its record type unless it is empty.
#[derive(Drop)]
pub struct ObjectType {
    pub place: Place,
    pub word: ObjectWord,
    pub record_type: Option<TypeName>,
}

/// One name of a declaration: its array size and its start value, if any.
#[derive(Drop)]
pub struct Declarator {
    pub name: Named,
    pub size: Option<Expr>,
    pub value: Option<Expr>,
}

/// Local variables of one type, one or more, with the place of `const`.
#[derive(Drop)]
pub struct Declaration {
    pub constant: Option<Place>,
    pub of: TypeName,
    pub first: Declarator,
    pub rest: Items<Declarator>,
}

/// `=` and the operators with `=`.
#[derive(Clone, Copy, Debug, PartialEq, Eq)]
pub enum AssignOperator {
    Plain,
    Multiply,
    Divide,
    Remainder,
    Add,
    Subtract,
    ShiftLeft,
    ShiftRight,
    BitAnd,
    BitXor,
    BitOr,
}

/// `++` and `--`.
#[derive(Clone, Copy, Debug, PartialEq, Eq)]
pub enum StepOperator {
    Increment,
    Decrement,
}

/// A statement or a part of a `for` header that evaluates an expression.
#[derive(Drop)]
pub enum Step {
    Evaluate {
        value: Expr,
    },
    Assign {
        target: Expr,
        operator: AssignOperator,
        place: Place,
        value: Expr,
    },
    Before {
        place: Place,
        operator: StepOperator,
        target: Expr,
    },
    After {
        target: Expr,
        operator: StepOperator,
        place: Place,
    },
}

/// Steps between commas, one or more.
#[derive(Drop)]
pub struct Steps {
    pub first: Step,
    pub rest: Items<Step>,
}

/// What a `for` begins with.
#[derive(Drop)]
pub enum Start {
    Declare { declaration: Declaration },
    Steps { steps: Steps },
}

/// The header of a `for`.
#[derive(Drop)]
pub struct Header {
    pub start: Option<Start>,
    pub test: Option<Expr>,
    pub steps: Option<Steps>,
}

/// A statement, with the place of its first token after the attributes where no part of it has that place.
#[derive(Drop)]
pub enum Stmt {
    Block {
        place: Place,
        body: Items<Stmt>,
    },
    Empty {
        place: Place,
    },
    Declare {
        declaration: Boxed<Declaration>,
    },
    Handle {
        of: ObjectType,
        name: Named,
        value: Expr,
    },
    Step {
        step: Step,
    },
    Break {
        place: Place,
    },
    Continue {
        place: Place,
    },
    Return {
        place: Place,
        value: Option<Expr>,
    },
    If {
        attributes: Items<Attribute>,
        place: Place,
        test: Expr,
        then: Boxed<Stmt>,
        other: Option<Boxed<Stmt>>,
    },
    While {
        attributes: Items<Attribute>,
        place: Place,
        test: Expr,
        body: Boxed<Stmt>,
    },
    For {
        attributes: Items<Attribute>,
        place: Place,
        header: Boxed<Header>,
        body: Boxed<Stmt>,
    },
}
