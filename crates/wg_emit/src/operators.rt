ghost use Rattle.std.specs.Prelude.{◌≡◌, [], ◌∷◌, ◌++◌, OnOk};
ghost use Rattle.wg_emit.specs.Each.{form_in};
ghost use Rattle.wg_lowered.specs.Exprs.{by_sign, form_of, pair_ops, swapped_op, turned_ops, word_ops};
ghost use Rattle.wg_words.specs.Truth.{truth};

use crate::registers::forward;
use std::alloc::AllocError;
use wg_code::{Op, Ops};
use wg_tree::{BinaryOperator, Scalar};
use wg_typed::has_sign;
use wg_words::Words;

/// An operator as an operation: its number, whether its operands are swapped, and whether its answer is turned.
#[derive(Clone, Copy, Debug, PartialEq, Eq)]
pub struct OperatorForm {
    pub number: u32,
    pub swapped: bool,
    pub turned: bool,
}

fn by(of: Scalar, unsigned: u32, signed: u32) -> u32
    ensures { result ≡ by_sign of unsigned signed }
{
    if has_sign(of) { signed } else { unsigned }
}

fn number(operator: BinaryOperator, of: Scalar) -> u32
    ensures { result ≡ (form_of operator of).number }
{
    match operator {
        BinaryOperator::Add | BinaryOperator::And | BinaryOperator::Or => 0,
        BinaryOperator::Subtract => 1,
        BinaryOperator::Multiply => 2,
        BinaryOperator::Divide => by(of, 3, 4),
        BinaryOperator::Remainder => by(of, 5, 6),
        BinaryOperator::ShiftLeft => 7,
        BinaryOperator::ShiftRight => by(of, 8, 9),
        BinaryOperator::BitAnd => 10,
        BinaryOperator::BitOr => 11,
        BinaryOperator::BitXor => 12,
        BinaryOperator::Equal | BinaryOperator::NotEqual => 13,
        BinaryOperator::Less
        | BinaryOperator::Greater
        | BinaryOperator::AtMost
        | BinaryOperator::AtLeast => by(of, 14, 15),
    }
}

/// `a > b` is `b < a`, and `a <= b` is that not `b < a`.
fn is_swapped(operator: BinaryOperator, _of: Scalar) -> bool
    ensures { truth result ≡ (form_of operator _of).swapped }
{
    matches!(operator, BinaryOperator::Greater | BinaryOperator::AtMost)
}

fn is_turned(operator: BinaryOperator, _of: Scalar) -> bool
    ensures { truth result ≡ (form_of operator _of).turned }
{
    matches!(
        operator,
        BinaryOperator::AtMost | BinaryOperator::AtLeast | BinaryOperator::NotEqual
    )
}

/// The operation of an operator on words of a scalar of 32 bits.
pub fn form(operator: BinaryOperator, of: Scalar) -> OperatorForm
    ensures { form_in result ≡ form_of operator of }
{
    OperatorForm {
        number: number(operator, of),
        swapped: is_swapped(operator, of),
        turned: is_turned(operator, of),
    }
}

fn emit_binary(ops: &mut Ops, form: OperatorForm, a: u32, b: u32, d: u32) -> Result<(), AllocError>
    ensures { OnOk result (ops.new ≡ ops.old ++ swapped_op (truth form.swapped) form.number d a b ∷ []) }
{
    let op = form.number;
    if form.swapped {
        ops.push(Op::Binary { op, d, a: b, b: a })
    } else {
        ops.push(Op::Binary { op, d, a, b })
    }
}

/// 0 becomes 1, and 1 becomes 0. The next register is used.
fn emit_turned(ops: &mut Ops, d: u32) -> Result<(), AllocError>
    ensures { OnOk result (ops.new ≡ ops.old ++ turned_ops 1 d) }
{
    let next = forward(d, 1)?;
    ops.push(Op::Set { d: next, value: 0 })?;
    ops.push(Op::Binary {
        op: 13,
        d,
        a: d,
        b: next,
    })
}

/// An operator on two registers.
fn emit_operator(
    ops: &mut Ops,
    form: OperatorForm,
    a: u32,
    b: u32,
    d: u32,
) -> Result<(), AllocError>
    ensures { OnOk result (ops.new ≡ ops.old ++ word_ops (form_in form) d a b) }
{
    emit_binary(ops, form, a, b, d)?;
    if form.turned {
        emit_turned(ops, d)?;
    }
    Ok(())
}

/// An operator on the registers of two values, pair by pair, into registers one after another.
#[tactic(auto, using(crate::proofs::Runs::pairs_go_on))]
pub fn emit_pairs(
    ops: &mut Ops,
    form: OperatorForm,
    left: &Words,
    right: &Words,
    d: u32,
) -> Result<(), AllocError>
    ensures { OnOk result (ops.new ≡ ops.old ++ pair_ops (form_in form) left.now right.now d) }
{
    let left = left.as_slice();
    let right = right.as_slice();
    let count = left.len().min(right.len());
    for i in 0..count {
        let to = forward(d, i as u64)?;
        emit_operator(ops, form, left[i], right[i], to)?;
    }
    Ok(())
}
