//! What single tokens stand for in expressions.
ghost use Rattle.std.specs.Prelude.{◌≡◌, map};
ghost use Rattle.wg_cursor.specs.ClassSets.{numbers};
ghost use Rattle.wg_tokens.specs.Classes.{number};
ghost use Rattle.wg_tree.specs.GrammarExpr as grammar;

use wg_cursor::symbols::{
    AMPERSAND, AND, AT_LEAST, AT_MOST, BAR, BOOL, BOOL2, BOOL3, BOOL4, CARET, EQUAL, GREATER, INT,
    INT2, INT3, INT4, INT16, INT64, LESS, MINUS, NOT, NOT_EQUAL, OR, PERCENT, PLUS, SHIFT_LEFT,
    SHIFT_RIGHT, SLASH, STAR, TILDE, UINT, UINT2, UINT3, UINT4, UINT16, UINT64,
};
use wg_cursor::{at_class, class};
use wg_tokens::{Class, Token};
use wg_tree::{BinaryOperator, PrefixOperator, Scalar, ValueType};

const VALUE_TYPES: [(Class, ValueType); 16] = [
    (BOOL, ValueType::Scalar { of: Scalar::Bool }),
    (
        BOOL2,
        ValueType::Vector {
            of: Scalar::Bool,
            size: 2,
        },
    ),
    (
        BOOL3,
        ValueType::Vector {
            of: Scalar::Bool,
            size: 3,
        },
    ),
    (
        BOOL4,
        ValueType::Vector {
            of: Scalar::Bool,
            size: 4,
        },
    ),
    (INT, ValueType::Scalar { of: Scalar::Int }),
    (
        INT2,
        ValueType::Vector {
            of: Scalar::Int,
            size: 2,
        },
    ),
    (
        INT3,
        ValueType::Vector {
            of: Scalar::Int,
            size: 3,
        },
    ),
    (
        INT4,
        ValueType::Vector {
            of: Scalar::Int,
            size: 4,
        },
    ),
    (UINT, ValueType::Scalar { of: Scalar::Uint }),
    (
        UINT2,
        ValueType::Vector {
            of: Scalar::Uint,
            size: 2,
        },
    ),
    (
        UINT3,
        ValueType::Vector {
            of: Scalar::Uint,
            size: 3,
        },
    ),
    (
        UINT4,
        ValueType::Vector {
            of: Scalar::Uint,
            size: 4,
        },
    ),
    (INT16, ValueType::Scalar { of: Scalar::Int16 }),
    (UINT16, ValueType::Scalar { of: Scalar::Uint16 }),
    (INT64, ValueType::Scalar { of: Scalar::Int64 }),
    (UINT64, ValueType::Scalar { of: Scalar::Uint64 }),
];

/// The type of values that a word names.
pub fn value_type(token: &Token) -> ValueType
    ensures { result ≡ grammar.value_type_of token.now }
{
    at_class(
        &VALUE_TYPES,
        ValueType::Scalar { of: Scalar::Bool },
        class(token),
    )
}

const PREFIXES: [(Class, PrefixOperator); 4] = [
    (MINUS, PrefixOperator::Minus),
    (PLUS, PrefixOperator::Plus),
    (NOT, PrefixOperator::Not),
    (TILDE, PrefixOperator::Complement),
];

pub(crate) fn prefix_operator(token: &Token) -> PrefixOperator
    ensures { result ≡ grammar.prefix_operator token.now }
{
    at_class(&PREFIXES, PrefixOperator::Minus, class(token))
}

const MULTIPLYING: [(Class, BinaryOperator); 3] = [
    (STAR, BinaryOperator::Multiply),
    (SLASH, BinaryOperator::Divide),
    (PERCENT, BinaryOperator::Remainder),
];

const ADDING: [(Class, BinaryOperator); 2] = [
    (PLUS, BinaryOperator::Add),
    (MINUS, BinaryOperator::Subtract),
];

const SHIFTING: [(Class, BinaryOperator); 2] = [
    (SHIFT_LEFT, BinaryOperator::ShiftLeft),
    (SHIFT_RIGHT, BinaryOperator::ShiftRight),
];

const ORDERING: [(Class, BinaryOperator); 4] = [
    (LESS, BinaryOperator::Less),
    (GREATER, BinaryOperator::Greater),
    (AT_MOST, BinaryOperator::AtMost),
    (AT_LEAST, BinaryOperator::AtLeast),
];

const EQUATING: [(Class, BinaryOperator); 2] = [
    (EQUAL, BinaryOperator::Equal),
    (NOT_EQUAL, BinaryOperator::NotEqual),
];

/// The operators of a level, from the tightest, which is 1.
fn operators_of(level: u32) -> &'static [(Class, BinaryOperator)]
    ensures { map (λ entry. (number entry.0, entry.1)) result.now ≡ grammar.operators level }
{
    match level {
        1 => &MULTIPLYING,
        2 => &ADDING,
        3 => &SHIFTING,
        4 => &ORDERING,
        5 => &EQUATING,
        6 => &[(AMPERSAND, BinaryOperator::BitAnd)],
        7 => &[(CARET, BinaryOperator::BitXor)],
        8 => &[(BAR, BinaryOperator::BitOr)],
        9 => &[(AND, BinaryOperator::And)],
        _ => &[(OR, BinaryOperator::Or)],
    }
}

/// The classes of the operators of a level.
pub(crate) fn operators(level: u32) -> &'static [Class]
    ensures { numbers result.now ≡ grammar.classes (grammar.operators level) }
{
    match level {
        1 => &[STAR, SLASH, PERCENT],
        2 => &[PLUS, MINUS],
        3 => &[SHIFT_LEFT, SHIFT_RIGHT],
        4 => &[LESS, GREATER, AT_MOST, AT_LEAST],
        5 => &[EQUAL, NOT_EQUAL],
        6 => &[AMPERSAND],
        7 => &[CARET],
        8 => &[BAR],
        9 => &[AND],
        _ => &[OR],
    }
}

/// The operator of a level that a token is.
pub(crate) fn binary_operator(level: u32, token: &Token) -> BinaryOperator
    ensures { result ≡ grammar.binary_operator level token.now }
{
    at_class(operators_of(level), BinaryOperator::Or, class(token))
}
