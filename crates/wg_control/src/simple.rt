ghost use Rattle.std.specs.Prelude.{◌≡◌, ◌≤◌, true, false, length, drop};
ghost use Rattle.wg_control.specs.Simple.{Sets, SetsFirst};

use wg_code::Op;
use wg_registers::{combine, put, word};
use wg_words::Word;

/// Runs an operation that only sets a register, to a word, another register's or an operator's; any other is left. Whether it was one.
#[inline(always)]
pub fn run_set(op: &Op, registers: &mut [Word]) -> bool
    ensures sets { result ≡ true → Sets op.now registers.old registers.new }
    ensures leaves { result ≡ false → registers.new ≡ registers.old }
{
    match op {
        Op::Set { d, value } => {
            put(registers, *d, *value);
            true
        }
        Op::Copy { d, a } => {
            let value = word(registers, *a);
            put(registers, *d, value);
            true
        }
        Op::Binary { op, d, a, b } => {
            let value = combine(*op, word(registers, *a), word(registers, *b));
            put(registers, *d, value);
            true
        }
        _ => false,
    }
}

/// Runs the operations in front that only set registers: how many.
///
/// It calls nothing that is not inlined, so blocks of such operations cost no saved registers.
#[inline(never)]
pub fn run_front(ops: &[Op], registers: &mut [Word]) -> usize
    ensures within { result ≤ length ops.now }
    ensures sets { SetsFirst result ops.now registers.old registers.new }
{
    let mut done = 0;
    for op in ops {
        if !run_set(op, registers) {
            return done;
        }
        done += 1;
    }
    done
}
