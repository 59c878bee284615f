ghost use Rattle.std.specs.Prelude.{◌≡◌, [], ◌∷◌, ◌++◌, IfOk, OnOk, length};
ghost use Rattle.wg_code.specs.declared.op.Op.TheVariants as o;
ghost use Rattle.wg_emit.specs.Each.{word_code};
ghost use Rattle.wg_lowered.specs.Exprs.{prefixed_op};
ghost use Rattle.wg_lowered.specs.Where.{each_ops, get_op, run as run_of};

use crate::registers::{forward, run};
use std::alloc::{AllocError, Global};
use wg_code::{Op, Ops};
use wg_lowered::Space;
use wg_tree::PrefixOperator;
use wg_words::Words;

/// The code that a word gets by itself: a register, a fixed word, or the number of a word in a range.
#[derive(Clone, Copy, Debug, PartialEq, Eq)]
pub enum WordCode {
    Copy,
    Set,
    Get {
        space: Space,
        from: u32,
        to: u32,
        index: u32,
    },
    /// 1 where the word is not 0.
    Truth,
    /// The sum of the word and 0.
    Wrap,
    Prefix {
        operator: PrefixOperator,
    },
}

fn emit_get(
    ops: &mut Ops,
    space: Space,
    from: u32,
    to: u32,
    index: u32,
    word: u32,
    d: u32,
) -> Result<(), AllocError>
    ensures { OnOk result (ops.new ≡ ops.old ++ get_op space from to index word d) }
{
    let from = forward(from, u64::from(word))?;
    match space {
        Space::Own => ops.push(Op::LocalGet { d, from, to, index }),
        Space::Group => ops.push(Op::SharedGet { d, from, to, index }),
    }
}

/// A zero, and an operator on it and another register.
fn emit_with_zero(ops: &mut Ops, op: u32, a: u32, b: u32, d: u32) -> Result<(), AllocError>
    ensures { OnOk result (ops.new ≡ ops.old ++ o.Set d 0 ∷ o.Binary op d a b ∷ []) }
{
    ops.push(Op::Set { d, value: 0 })?;
    ops.push(Op::Binary { op, d, a, b })
}

fn emit_prefix(ops: &mut Ops, operator: PrefixOperator, a: u32, d: u32) -> Result<(), AllocError>
    ensures { OnOk result (ops.new ≡ ops.old ++ prefixed_op operator a d) }
{
    match operator {
        PrefixOperator::Minus => emit_with_zero(ops, 1, d, a, d),
        PrefixOperator::Plus => ops.push(Op::Copy { d, a }),
        PrefixOperator::Not => emit_with_zero(ops, 13, a, d, d),
        PrefixOperator::Complement => ops.push(Op::Unary { op: 0, d, a }),
    }
}

fn emit_word(ops: &mut Ops, code: WordCode, word: u32, d: u32) -> Result<(), AllocError>
    ensures { OnOk result (ops.new ≡ ops.old ++ word_code code word d) }
{
    match code {
        WordCode::Copy => ops.push(Op::Copy { d, a: word }),
        WordCode::Set => ops.push(Op::Set { d, value: word }),
        WordCode::Get {
            space,
            from,
            to,
            index,
        } => emit_get(ops, space, from, to, index, word, d),
        WordCode::Truth => emit_with_zero(ops, 14, d, word, d),
        WordCode::Wrap => emit_with_zero(ops, 0, d, word, d),
        WordCode::Prefix { operator } => emit_prefix(ops, operator, word, d),
    }
}

/// The code of each word, into registers one after another.
pub fn emit_each(ops: &mut Ops, code: WordCode, words: &Words, d: u32) -> Result<(), AllocError>
    ensures { OnOk result (ops.new ≡ ops.old ++ each_ops (word_code code) words.now d) }
{
    for (i, word) in words.as_slice().iter().enumerate() {
        let to = forward(d, i as u64)?;
        emit_word(ops, code, *word, to)?;
    }
    Ok(())
}

/// The same, and the registers.
pub fn emit_words(
    alloc: Global,
    ops: &mut Ops,
    code: WordCode,
    words: &Words,
    d: u32,
) -> Result<Words, AllocError>
    ensures at { IfOk result (λ list. list ≡ run_of d (length words.now)) }
    ensures ops { OnOk result (ops.new ≡ ops.old ++ each_ops (word_code code) words.now d) }
{
    emit_each(ops, code, words, d)?;
    run(alloc, d, words.len() as u64)
}
