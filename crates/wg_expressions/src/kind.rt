//! Kinds of expressions, and the sets of classes that decide on them.
ghost use Rattle.std.specs.Prelude.{◌≡◌};
ghost use Rattle.wg_tree.specs.ReadsExpr as reads;
ghost use Rattle.wg_cursor.specs.ClassSets.{numbers};
ghost use Rattle.wg_expressions.specs.Kinds.{kind_of};

use wg_cursor::symbols::{
    BOOL, BOOL2, BOOL3, BOOL4, FALSE, INT, INT2, INT3, INT4, INT16, INT64, LEFT_PAREN, MINUS, NAME,
    NOT, NUMBER, PLUS, TEXT, TILDE, TRUE, UINT, UINT2, UINT3, UINT4, UINT16, UINT64, ZERO,
};
use wg_tokens::Class;

/// The classes of the types of values.
pub const VALUE_TYPES: [Class; 16] = [
    BOOL, BOOL2, BOOL3, BOOL4, INT, INT2, INT3, INT4, UINT, UINT2, UINT3, UINT4, INT16, UINT16,
    INT64, UINT64,
];

pub(crate) const PREFIX_OPERATORS: [Class; 4] = [MINUS, PLUS, NOT, TILDE];

const STARTS: [Class; 26] = [
    MINUS, PLUS, NOT, TILDE, NUMBER, ZERO, TRUE, FALSE, NAME, BOOL, BOOL2, BOOL3, BOOL4, INT, INT2,
    INT3, INT4, UINT, UINT2, UINT3, UINT4, INT16, UINT16, INT64, UINT64, LEFT_PAREN,
];

const CONSTANT_STARTS: [Class; 8] = [MINUS, PLUS, NOT, TILDE, NUMBER, ZERO, NAME, LEFT_PAREN];

const ARGUMENT_STARTS: [Class; 9] = [
    MINUS, PLUS, NOT, TILDE, NUMBER, ZERO, TEXT, NAME, LEFT_PAREN,
];

/// An expression, one that is a `const` outside of attributes, or an argument of an attribute.
#[derive(Clone, Copy, Debug, PartialEq, Eq)]
pub enum ExprKind {
    Full,
    Constant,
    Argument,
}

/// What stands one deeper: an expression, or the operand of a prefix.
#[derive(Clone, Copy)]
pub(crate) enum Nested {
    Whole,
    Operand,
}

impl ExprKind {
    /// The classes with which it begins.
    pub fn starts(self) -> &'static [Class]
        ensures { numbers result.now ≡ reads.starts (kind_of self) }
    {
        match self {
            ExprKind::Full => &STARTS,
            ExprKind::Constant => &CONSTANT_STARTS,
            ExprKind::Argument => &ARGUMENT_STARTS,
        }
    }
}
