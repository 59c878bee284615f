ghost use Rattle.std.specs.Prelude.{◌≡◌, [], ◌∷◌, ◌++◌, IfOk, OnOk, replicate, slice_index};
ghost use Rattle.wg_emit.specs.Each.{word_code};
ghost use Rattle.wg_lowered.specs.Exprs.{converted_code, filled_code, scalar_code, scalar_op};

use crate::each::{WordCode, emit_each, emit_words};
use crate::registers::{register_at, repeat};
use std::alloc::{AllocError, Global};
use wg_code::Ops;
use wg_tree::Scalar;
use wg_typed::TypeTree;
use wg_words::Words;

fn code_for(of: Scalar) -> WordCode
    ensures { word_code result ≡ scalar_op of }
{
    match of {
        Scalar::Bool => WordCode::Truth,
        Scalar::Int
        | Scalar::Uint
        | Scalar::Int16
        | Scalar::Uint16
        | Scalar::Int64
        | Scalar::Uint64 => WordCode::Wrap,
    }
}

fn convert_words(
    alloc: Global,
    ops: &mut Ops,
    to: Scalar,
    registers: &Words,
    d: u32,
) -> Result<Words, AllocError>
    ensures at { IfOk result (λ list. list ≡ (scalar_code to registers.now d).at) }
    ensures ops { OnOk result (ops.new ≡ ops.old ++ (scalar_code to registers.now d).ops) }
{
    emit_words(alloc, ops, code_for(to), registers, d)
}

/// A scalar fills a vector: one word is converted.
fn fill(
    alloc: Global,
    ops: &mut Ops,
    to: Scalar,
    size: u32,
    registers: &Words,
    d: u32,
) -> Result<Words, AllocError>
    ensures at { IfOk result (λ list. list ≡ replicate size d) }
    ensures ops { OnOk result (ops.new ≡ ops.old ++ (scalar_code to (slice_index registers.now 0 ∷ []) d).ops) }
{
    let word = Words::from_slice(alloc, &[register_at(registers, 0)])?;
    emit_each(ops, code_for(to), &word, d)?;
    repeat(alloc, d, size)
}

fn convert_vector(
    alloc: Global,
    ops: &mut Ops,
    from: TypeTree,
    to: Scalar,
    size: u32,
    registers: &Words,
    d: u32,
) -> Result<Words, AllocError>
    ensures at { IfOk result (λ list. list ≡ (filled_code from to size registers.now d).at) }
    ensures ops { OnOk result (ops.new ≡ ops.old ++ (filled_code from to size registers.now d).ops) }
{
    match from {
        TypeTree::Scalar { .. } => fill(alloc, ops, to, size, registers, d),
        TypeTree::Vector { .. } | TypeTree::Struct { .. } | TypeTree::Array { .. } => {
            convert_words(alloc, ops, to, registers, d)
        }
    }
}

/// The registers of a value of one type as one of another, where those from `d` on are free.
pub fn convert(
    alloc: Global,
    ops: &mut Ops,
    from: TypeTree,
    to: TypeTree,
    registers: Words,
    d: u32,
) -> Result<Words, AllocError>
    ensures at { IfOk result (λ list. list ≡ (converted_code from to registers d).at) }
    ensures ops { OnOk result (ops.new ≡ ops.old ++ (converted_code from to registers d).ops) }
{
    match to {
        TypeTree::Scalar { of } => convert_words(alloc, ops, of, &registers, d),
        TypeTree::Vector { of, size } => convert_vector(alloc, ops, from, of, size, &registers, d),
        TypeTree::Struct { .. } | TypeTree::Array { .. } => Ok(registers),
    }
}
