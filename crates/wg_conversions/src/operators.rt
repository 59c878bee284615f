ghost use Rattle.std.specs.Prelude.{◌≡◌};
ghost use Rattle.wg_typed.specs.Operators as t;
ghost use Rattle.wg_typing.specs.Conversions as c;
ghost use Rattle.wg_typing.specs.TypingOperators as o;

use crate::agreed::{common, joined_size};
use crate::types::{is_number, is_scalar, numbers};
use wg_tree::{BinaryOperator, PrefixOperator, Scalar};
use wg_typed::{TypeTree, counted};
use wg_typing::{Numbers, Operation};

pub fn truths(size: Option<u32>) -> Numbers
    ensures { result ≡ c.truths size }
{
    Numbers {
        of: Scalar::Bool,
        size,
    }
}

fn counts(of: Scalar, size: Option<u32>) -> Numbers
    ensures { result ≡ record { of = t.counted of; size = size } }
{
    Numbers {
        of: counted(of),
        size,
    }
}

/// Whether an operand may be of the type, whatever the other one.
pub fn suits(operator: BinaryOperator, t: TypeTree) -> bool
    ensures { result ≡ c.suits (c.class_of operator) t }
{
    match operator {
        BinaryOperator::And | BinaryOperator::Or => is_scalar(t),
        _ => is_number(t),
    }
}

fn arithmetic(a: Numbers, b: Numbers) -> Option<Operation>
    ensures { result ≡ c.operation c.arithmetic a b }
{
    let n = common(a, b)?;
    Some(Operation {
        left: n,
        right: n,
        result: n,
    })
}

fn shift(a: Numbers, b: Numbers) -> Option<Operation>
    ensures { result ≡ c.operation c.shift a b }
{
    let size = joined_size(a, b)?;
    Some(Operation {
        left: counts(a.of, size),
        right: counts(b.of, size),
        result: counts(a.of, size),
    })
}

fn comparison(a: Numbers, b: Numbers) -> Option<Operation>
    ensures { result ≡ c.operation c.comparison a b }
{
    let n = common(a, b)?;
    Some(Operation {
        left: n,
        right: n,
        result: truths(n.size),
    })
}

fn logic() -> Operation
    ensures { result ≡ record { left = c.truths None; right = c.truths None; result = c.truths None } }
{
    Operation {
        left: truths(None),
        right: truths(None),
        result: truths(None),
    }
}

fn operation(operator: BinaryOperator, a: Numbers, b: Numbers) -> Option<Operation>
    ensures { result ≡ c.operation (c.class_of operator) a b }
{
    match operator {
        BinaryOperator::Multiply
        | BinaryOperator::Divide
        | BinaryOperator::Remainder
        | BinaryOperator::Add
        | BinaryOperator::Subtract
        | BinaryOperator::BitAnd
        | BinaryOperator::BitXor
        | BinaryOperator::BitOr => arithmetic(a, b),
        BinaryOperator::ShiftLeft | BinaryOperator::ShiftRight => shift(a, b),
        BinaryOperator::Less
        | BinaryOperator::Greater
        | BinaryOperator::AtMost
        | BinaryOperator::AtLeast
        | BinaryOperator::Equal
        | BinaryOperator::NotEqual => comparison(a, b),
        BinaryOperator::And | BinaryOperator::Or => Some(logic()),
    }
}

pub fn operation_on(operator: BinaryOperator, a: TypeTree, b: TypeTree) -> Option<Operation>
    ensures { result ≡ c.operation_on operator a b }
{
    let left = numbers(a)?;
    let right = numbers(b)?;
    operation(operator, left, right)
}

/// The operation, where both operands suit and fit together.
pub fn suited(operator: BinaryOperator, a: TypeTree, b: TypeTree) -> Option<Operation>
    ensures { result ≡ o.suited operator a b }
{
    if suits(operator, a) & suits(operator, b) {
        operation_on(operator, a, b)
    } else {
        None
    }
}

pub fn prefix_type(operator: PrefixOperator, n: Numbers) -> Numbers
    ensures { result ≡ o.prefix_type operator n }
{
    match operator {
        PrefixOperator::Minus | PrefixOperator::Plus | PrefixOperator::Complement => counts(
            n.of, n.size,
        ),
        PrefixOperator::Not => truths(n.size),
    }
}
