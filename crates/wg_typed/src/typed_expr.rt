use crate::types::TypeTree;
use sqlite_items::{Boxed, Items};
use wg_tree::{BinaryOperator, PrefixOperator};
use wg_words::{Place, Words};

/// The calls of the language on numbers.
#[derive(Clone, Copy, Debug, PartialEq, Eq)]
pub enum Intrinsic {
    Min,
    Max,
    Clamp,
    Abs,
    MultiplyAdd,
    CountBits,
    FirstBitHigh,
    FirstBitLow,
    ReverseBits,
    Any,
    All,
    Select,
    And,
    Or,
}

/// An expression after typing, with its type and the place of its first token. Names are resolved and conversions written.
#[derive(Drop)]
#[cycle(typed_expr)]
pub struct TypedExpr {
    pub kind: TypedKind,
    pub of: TypeTree,
    pub place: Place,
}

/// What kind of expression it is.
#[derive(Drop)]
#[cycle(typed_expr)]
pub enum TypedKind {
    /// A number, `true`, `false` or a static constant, by its words.
    Literal {
        words: Words,
    },
    /// A variable of the function: a parameter that is no object, or a local.
    Variable {
        variable: u32,
    },
    /// A groupshared variable.
    Shared {
        variable: u32,
    },
    /// `buffer[index]` of a structured buffer.
    Element {
        buffer: u32,
        index: Boxed<TypedExpr>,
    },
    /// `Load` to `Load4` of a raw buffer: as many words as the type has.
    Load {
        buffer: u32,
        address: Boxed<TypedExpr>,
    },
    /// A record of the input: `Get()`, `Get(index)` or `[index]`.
    Input {
        index: Option<Boxed<TypedExpr>>,
    },
    /// `Count()` of the input.
    Count,
    /// `FinishedCrossGroupSharing()` of the input.
    Finished,
    /// A record of a handle: `Get()`, `Get(index)` or `[index]`.
    Handle {
        handle: u32,
        index: Option<Boxed<TypedExpr>>,
    },
    /// `IsValid()` of an output, or of an element of an output array.
    IsValid {
        output: u32,
        element: Option<Boxed<TypedExpr>>,
    },
    /// `GetRemainingRecursionLevels()`.
    Levels,
    /// `(S)0`.
    Zeros,
    /// Members, components and elements of a value, one form or more.
    Access {
        base: Boxed<TypedExpr>,
        forms: Items<Access>,
    },
    Prefix {
        operator: PrefixOperator,
        operand: Boxed<TypedExpr>,
    },
    /// A conversion to the type of this expression.
    Convert {
        operand: Boxed<TypedExpr>,
    },
    /// Operators of one level, one or more, from left to right.
    Chain {
        first: Boxed<TypedExpr>,
        rest: Items<TypedLink>,
    },
    Choice {
        test: Boxed<TypedExpr>,
        then: Boxed<TypedExpr>,
        other: Boxed<TypedExpr>,
    },
    Construct {
        parts: Items<TypedExpr>,
    },
    /// A call of a plain function that has a result.
    Call {
        function: u32,
        arguments: Items<TypedExpr>,
    },
    Intrinsic {
        call: Intrinsic,
        arguments: Items<TypedExpr>,
    },
}

/// A form after a value, with the type of what it gives.
#[derive(Drop)]
#[cycle(typed_expr)]
pub enum Access {
    Field { field: u32, of: TypeTree },
    /// Components of a vector, by number; of one, a scalar.
    Components { components: Words, of: TypeTree },
    Index { index: TypedExpr, of: TypeTree },
}

/// An operator of a chain: the type to which what stands before it is converted, if that is another one, its right
/// operand, and the type of the result.
#[derive(Drop)]
#[cycle(typed_expr)]
pub struct TypedLink {
    pub operator: BinaryOperator,
    pub before: Option<TypeTree>,
    pub operand: TypedExpr,
    pub of: TypeTree,
}
