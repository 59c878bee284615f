ghost use Rattle.std.specs.Prelude.{◌≡◌};
ghost use Rattle.wg_code.specs.Given.{scope_of};
ghost use Rattle.wg_code.specs.Valid.{is_valid, are_valid};

use crate::leaves::leaf_fits;
use crate::op::{Op, Ops};
use crate::scope::{Scope, all_below, is_deeper, takes_so_many};

#[cycle(fits)]
pub fn ops_fit(k: &Scope<'_>, in_loop: bool, ops: &[Op]) -> bool
    ensures { result ≡ are_valid (scope_of k.now) in_loop ops.now }
{
    for op in ops {
        if !op_fits(k, in_loop, op) {
            return false;
        }
    }
    true
}

#[cycle(fits)]
fn op_fits(k: &Scope<'_>, in_loop: bool, op: &Op) -> bool
    ensures { result ≡ is_valid (scope_of k.now) op.now in_loop }
{
    let n = k.registers;
    match op {
        Op::If {
            a,
            yes: first,
            no: second,
        } => {
            *a < n
                && (ops_fit(k, in_loop, first.as_slice()) && ops_fit(k, in_loop, second.as_slice()))
        }
        Op::Loop {
            test,
            a,
            body,
            step,
        } => {
            *a < n
                && (ops_fit(k, true, test.as_slice())
                    && (ops_fit(k, true, body.as_slice()) && ops_fit(k, true, step.as_slice())))
        }
        Op::Break | Op::Continue => in_loop,
        Op::Call {
            function,
            args,
            results,
        } => {
            takes_so_many(k, *function, args.len(), results.len())
                && all_below(args, n)
                && all_below(results, n)
                && is_deeper(k, *function)
        }
        _ => leaf_fits(k, in_loop, op),
    }
}
