ghost use Rattle.std.specs.Prelude.{◌≡◌, ℕ, ◌+◌, min};
ghost use Rattle.wg_code.specs.Counts.{requests_step, requests_in, part_requests, requests_in_parts};
ghost use Rattle.wg_code.specs.declared.op.Op.{fold-Op};
ghost use Rattle.wg_code.specs.declared.code.Part.{fold-Part};

use crate::code::Part;
use crate::op::Op;

/// One more than the requests that a node may have.
pub const ABOVE_REQUESTS: u32 = 65_537;

fn capped(a: u32, b: u32) -> u32
    ensures { result ≡ min ABOVE_REQUESTS (a + b) }
{
    a.saturating_add(b).min(ABOVE_REQUESTS)
}

/// The requests of operations, where they are few.
#[cycle(counted)]
pub fn requests(ops: &[Op]) -> u32
    ensures { result ≡ min ABOVE_REQUESTS (requests_in ops.now) }
{
    let mut total = 0;
    for op in ops {
        total = capped(total, op_requests(op));
    }
    total
}

#[cycle(counted)]
fn op_requests(op: &Op) -> u32
    ensures { result ≡ min ABOVE_REQUESTS (fold-Op ℕ requests_step op.now) }
{
    match op {
        Op::Request { .. } | Op::Increment { .. } => 1,
        Op::If {
            yes: first,
            no: second,
            ..
        } => { capped(requests(first.as_slice()), requests(second.as_slice())) }
        Op::Loop {
            test,
            body,
            step,
            ..
        } => {
            let rest = capped(requests(body.as_slice()), requests(step.as_slice()));
            capped(requests(test.as_slice()), rest)
        }
        Op::Set { .. }
        | Op::Copy { .. }
        | Op::Unary { .. }
        | Op::Binary { .. }
        | Op::LocalGet { .. }
        | Op::LocalPut { .. }
        | Op::SharedGet { .. }
        | Op::SharedPut { .. }
        | Op::SharedAtomic { .. }
        | Op::InputGet { .. }
        | Op::InputPut { .. }
        | Op::InputCount { .. }
        | Op::Level { .. }
        | Op::System { .. }
        | Op::BufferGet { .. }
        | Op::BufferPut { .. }
        | Op::BufferAdd { .. }
        | Op::BufferAtomic { .. }
        | Op::BufferLength { .. }
        | Op::Valid { .. }
        | Op::RecordGet { .. }
        | Op::RecordPut { .. }
        | Op::Complete { .. }
        | Op::Break
        | Op::Continue
        | Op::Call { .. }
        | Op::Wide { .. }
        | Op::Half { .. }
        | Op::Last { .. } => 0,
    }
}

/// The requests of parts, where they are few.
#[cycle(parts_counted)]
pub fn part_list_requests(parts: &[Part]) -> u32
    ensures { result ≡ min ABOVE_REQUESTS (requests_in_parts parts.now) }
{
    let mut total = 0;
    for part in parts {
        total = capped(total, one_part_requests(part));
    }
    total
}

#[cycle(parts_counted)]
fn one_part_requests(part: &Part) -> u32
    ensures { result ≡ min ABOVE_REQUESTS (fold-Part ℕ part_requests part.now) }
{
    match part {
        Part::Lanes { body } => requests(body.as_slice()),
        Part::First { body } => requests(body.as_slice()),
        Part::Choose {
            yes: first,
            no: second,
            ..
        } => {
            capped(
                part_list_requests(first.as_slice()),
                part_list_requests(second.as_slice()),
            )
        }
    }
}
