use crate::typed_expr::TypedExpr;
use crate::types::{ConstValue, TypeTree};
use sqlite_items::{Boxed, Items};
use wg_tree::{BinaryOperator, Named, StepOperator};
use wg_words::{Name, Place};

/// The value of an argument of an attribute.
#[derive(Drop)]
pub enum ArgumentValue {
    Number { value: ConstValue },
    Text { bytes: Name },
    /// The name of a parameter of the same function, by itself.
    Parameter { parameter: u32 },
    /// An expression of no such form.
    Other,
}

#[derive(Drop)]
pub struct TypedArgument {
    pub place: Place,
    pub value: ArgumentValue,
}

/// An attribute with its evaluated arguments.
#[derive(Drop)]
pub struct TypedAttribute {
    pub place: Place,
    pub name: Named,
    pub arguments: Items<TypedArgument>,
}

/// One name of a declaration: the number of its variable.
#[derive(Drop)]
pub struct TypedDeclarator {
    pub variable: u32,
    pub of: TypeTree,
    pub value: Option<TypedExpr>,
}

/// The interlocked forms.
#[derive(Clone, Copy, Debug, PartialEq, Eq)]
pub enum InterlockedForm {
    Add,
    Min,
    Max,
    And,
    Or,
    Xor,
    Exchange,
    CompareExchange,
    CompareStore,
}

/// What an interlocked form changes: a groupshared scalar or one of a structured buffer, or a word of a raw buffer.
#[derive(Drop)]
pub enum Destination {
    Scalar { target: TypedExpr },
    Raw { buffer: u32, address: TypedExpr },
}

/// An interlocked form; `signed` where `Min` and `Max` are on `int`.
#[derive(Drop)]
pub struct Interlocked {
    pub form: InterlockedForm,
    pub signed: bool,
    pub destination: Destination,
    pub compare: Option<TypedExpr>,
    pub value: TypedExpr,
    pub old: Option<TypedExpr>,
}

/// A statement or a part of a `for` header that evaluates an expression.
#[derive(Drop)]
pub enum TypedStep {
    Evaluate {
        value: TypedExpr,
    },
    /// A call of a plain function without a result.
    Call {
        function: u32,
        arguments: Items<TypedExpr>,
    },
    Assign {
        target: TypedExpr,
        value: TypedExpr,
    },
    /// `target op= value`, where the operation has this type; its result is converted back.
    Update {
        target: TypedExpr,
        operator: BinaryOperator,
        by: TypeTree,
        value: TypedExpr,
    },
    /// `++` and `--`.
    Change {
        target: TypedExpr,
        operator: StepOperator,
    },
    /// `Store` to `Store4` of a raw buffer: as many words as the value has.
    Store {
        buffer: u32,
        address: TypedExpr,
        value: TypedExpr,
    },
    Interlocked {
        interlocked: Interlocked,
    },
}

/// What a `for` begins with.
#[derive(Drop)]
pub enum TypedStart {
    Declare { declared: Items<TypedDeclarator> },
    Steps { steps: Items<TypedStep> },
}

/// A statement after typing. A collective `if` is marked.
#[derive(Drop)]
pub enum TypedStmt {
    Block {
        body: Items<TypedStmt>,
    },
    Empty,
    Declare {
        declared: Items<TypedDeclarator>,
    },
    /// The declaration of a handle: its request, for each lane or for the group.
    Request {
        handle: u32,
        group: bool,
        output: u32,
        element: Option<TypedExpr>,
        amount: TypedExpr,
    },
    /// `ThreadIncrementOutputCount` and `GroupIncrementOutputCount`.
    Increment {
        group: bool,
        output: u32,
        element: Option<TypedExpr>,
        amount: TypedExpr,
    },
    /// `OutputComplete()`.
    Complete {
        handle: u32,
    },
    Barrier {
        syncs: bool,
    },
    Step {
        step: TypedStep,
    },
    Break,
    Continue,
    Return {
        value: Option<TypedExpr>,
    },
    If {
        attributes: Items<TypedAttribute>,
        collective: bool,
        test: TypedExpr,
        then: Boxed<TypedStmt>,
        other: Option<Boxed<TypedStmt>>,
    },
    While {
        attributes: Items<TypedAttribute>,
        test: TypedExpr,
        body: Boxed<TypedStmt>,
    },
    For {
        attributes: Items<TypedAttribute>,
        start: Option<TypedStart>,
        test: Option<TypedExpr>,
        steps: Items<TypedStep>,
        body: Boxed<TypedStmt>,
    },
}
