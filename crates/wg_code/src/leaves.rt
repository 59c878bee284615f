ghost use Rattle.std.specs.Prelude.{◌≡◌};
ghost use Rattle.wg_code.specs.Given.{scope_of};
ghost use Rattle.wg_code.specs.Fits.{leaf_valid, outer_valid, buffers_valid, records_valid};

use crate::op::Op;
use crate::scope::{Scope, has_handle, is_pair, is_range_of, is_wide_target};

/// Whether an operation on outputs or new records is valid; any other is.
fn record_fits(k: &Scope<'_>, in_loop: bool, op: &Op) -> bool
    ensures { result ≡ records_valid (scope_of k.now) op.now in_loop }
{
    let n = k.registers;
    match op {
        Op::Valid { d, output, element } => {
            u64::from(*output) < k.outputs && *d < n && *element < n
        }
        Op::Request {
            handle,
            element,
            amount,
        } => { has_handle(k, *handle) && *element < n && *amount < n && (k.node && !in_loop) }
        Op::Increment {
            output,
            element,
            amount,
        } => {
            u64::from(*output) < k.outputs && *element < n && *amount < n && (k.node && !in_loop)
        }
        Op::RecordGet {
            d,
            handle,
            index,
            from,
            to,
            word,
        } => { has_handle(k, *handle) && *from <= *to && *d < n && *index < n && *word < n }
        Op::RecordPut {
            handle,
            index,
            from,
            to,
            word,
            a,
        } => { has_handle(k, *handle) && *from <= *to && *index < n && *word < n && *a < n }
        Op::Complete { handle } => has_handle(k, *handle) && (k.node && !in_loop),
        _ => true,
    }
}

/// Whether an operation on a buffer, or one on outputs or new records, is valid; any other is.
fn buffer_fits(k: &Scope<'_>, in_loop: bool, op: &Op) -> bool
    ensures { result ≡ buffers_valid (scope_of k.now) op.now in_loop }
{
    let n = k.registers;
    match op {
        Op::BufferGet { d, buffer, word } => {
            u64::from(*buffer) < k.buffers && *d < n && *word < n
        }
        Op::BufferPut { buffer, word, a } | Op::BufferAdd { buffer, word, a } => {
            u64::from(*buffer) < k.buffers && *word < n && *a < n
        }
        Op::BufferAtomic {
            op,
            d,
            buffer,
            word,
            compare,
            value,
        } => {
            *op < 10
                && u64::from(*buffer) < k.buffers
                && *d < n
                && *word < n
                && *compare < n
                && *value < n
        }
        Op::BufferLength { d, buffer } => u64::from(*buffer) < k.buffers && *d < n,
        _ => record_fits(k, in_loop, op),
    }
}

/// Whether an operation on groupshared words, or one that is none on registers, is valid; any other is.
fn shared_fits(k: &Scope<'_>, in_loop: bool, op: &Op) -> bool
    ensures { result ≡ outer_valid (scope_of k.now) op.now in_loop }
{
    let n = k.registers;
    match op {
        Op::SharedGet { d, from, to, index } => {
            is_range_of(k.shared, *from, *to) && *d < n && *index < n
        }
        Op::SharedPut { from, to, index, a } => {
            is_range_of(k.shared, *from, *to) && *index < n && *a < n
        }
        Op::SharedAtomic {
            op,
            d,
            from,
            to,
            index,
            compare,
            value,
        } => {
            *op < 10
                && is_range_of(k.shared, *from, *to)
                && *d < n
                && *index < n
                && *compare < n
                && *value < n
        }
        _ => buffer_fits(k, in_loop, op),
    }
}

/// Whether an operation that holds no others, calls no function and leaves no block is valid; any other is.
pub fn leaf_fits(k: &Scope<'_>, in_loop: bool, op: &Op) -> bool
    ensures { result ≡ leaf_valid (scope_of k.now) op.now in_loop }
{
    let n = k.registers;
    match op {
        Op::Set { d, .. } | Op::InputCount { d } | Op::Level { d } | Op::Last { d } => *d < n,
        Op::Copy { d, a } => *d < n && *a < n,
        Op::Unary { op, d, a } => *op < 5 && *d < n && *a < n,
        Op::Binary { op, d, a, b } | Op::Half { op, d, a, b } => {
            *op < 16 && *d < n && *a < n && *b < n
        }
        Op::Wide { op, d, a, b } => {
            *op < 16 && is_wide_target(n, *op, *d) && is_pair(n, *a) && is_pair(n, *b)
        }
        Op::LocalGet { d, from, to, index } => {
            is_range_of(n, *from, *to) && *d < n && *index < n
        }
        Op::LocalPut { from, to, index, a } => {
            is_range_of(n, *from, *to) && *index < n && *a < n
        }
        Op::InputGet { d, input, word } => *d < n && *input < n && *word < n,
        Op::InputPut { input, word, a } => *input < n && *word < n && *a < n,
        Op::System { d, which } => *which < 10 && *d < n,
        _ => shared_fits(k, in_loop, op),
    }
}
