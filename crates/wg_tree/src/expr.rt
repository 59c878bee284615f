use sqlite_items::{Boxed, Items};
use wg_words::{Name, Place};

/// A name where it stands.
#[derive(Debug, Drop)]
pub struct Named {
    pub name: Name,
    pub place: Place,
}

/// A scalar type. `Int` and `Uint` have 32 bits; those of 16 and 64 bits are called wide.
#[derive(Clone, Copy, Debug, PartialEq, Eq)]
pub enum Scalar {
    Bool,
    Int,
    Uint,
    Int16,
    Uint16,
    Int64,
    Uint64,
}

/// A scalar, or a vector of 2, 3 or 4 of them; no vector is of a wide scalar.
#[derive(Clone, Copy, Debug, PartialEq, Eq)]
pub enum ValueType {
    Scalar { of: Scalar },
    Vector { of: Scalar, size: u32 },
}

/// A type as it is written: of values, or the name of a struct.
#[derive(Debug, Drop)]
pub enum TypeName {
    Value { place: Place, of: ValueType },
    Struct { name: Named },
}

/// `-`, `+`, `!` and `~`.
#[derive(Clone, Copy, Debug, PartialEq, Eq)]
pub enum PrefixOperator {
    Minus,
    Plus,
    Not,
    Complement,
}

/// The two-sided operators, from the tightest level to the loosest.
#[derive(Clone, Copy, Debug, PartialEq, Eq)]
pub enum BinaryOperator {
    Multiply,
    Divide,
    Remainder,
    Add,
    Subtract,
    ShiftLeft,
    ShiftRight,
    Less,
    Greater,
    AtMost,
    AtLeast,
    Equal,
    NotEqual,
    BitAnd,
    BitXor,
    BitOr,
    And,
    Or,
}

/// An expression, with the place of its first token where no part of it has that place.
#[derive(Drop)]
#[cycle(expr)]
pub enum Expr {
    Number {
        place: Place,
        value: u64,
        unsigned: bool,
        long: bool,
    },
    Text {
        place: Place,
        bytes: Name,
    },
    Truth {
        place: Place,
        value: bool,
    },
    Name {
        name: Named,
    },
    Call {
        name: Named,
        arguments: Items<Expr>,
    },
    Construct {
        place: Place,
        of: ValueType,
        arguments: Items<Expr>,
    },
    Bracket {
        place: Place,
        inner: Boxed<Expr>,
    },
    Prefix {
        place: Place,
        operator: PrefixOperator,
        operand: Boxed<Expr>,
    },
    Cast {
        place: Place,
        to: ValueType,
        operand: Boxed<Expr>,
    },
    /// `(S)0`, a struct of zeros.
    Zeros {
        place: Place,
        of: Named,
    },
    /// What follows an operand, one form or more.
    Postfix {
        first: Boxed<Expr>,
        forms: Items<Form>,
    },
    /// Operators of one level, one or more, from left to right.
    Chain {
        first: Boxed<Expr>,
        rest: Items<Link>,
    },
    /// `test ? then : other`.
    Choice {
        test: Boxed<Expr>,
        then: Boxed<Expr>,
        other: Boxed<Expr>,
    },
}

#[derive(Drop)]
#[cycle(expr)]
pub enum Form {
    Member { name: Named },
    Method { name: Named, arguments: Items<Expr> },
    Index { place: Place, index: Expr },
}

/// An operator of a chain, with its place, and its right operand.
#[derive(Drop)]
#[cycle(expr)]
pub struct Link {
    pub operator: BinaryOperator,
    pub place: Place,
    pub operand: Expr,
}
