ghost use Rattle.std.specs.Prelude.{◌≡◌, OnOk};
ghost use Rattle.wg_registers.specs.Given.{around_of};
ghost use Rattle.wg_operations.specs.Says.{Runs, Makes};
ghost use Rattle.wg_leaves.specs.Going.{Kept, is_quiet_op};
ghost use Rattle.wg_leaves.specs.Leaves.{leaf_does, asked_does};

use crate::sure::run_sure;
use std::alloc::AllocError;
use wg_code::Op;
use wg_machine::{Halt, Memory};
use wg_operations::{
    Asked, End, Form, add_to_buffer, exchange_in_buffer, get_buffer, increment, input_count,
    length_of_buffer, request, set_buffer,
};
use wg_registers::{Around, Outside, put};
use wg_words::Word;

/// Runs an operation that may want memory, but none of a buffer's; or one that cannot fail.
fn run_asked(
    around: &Around<'_>,
    op: &Op,
    registers: &mut [Word],
    s: &mut Outside,
) -> Result<(), AllocError>
    ensures makes { OnOk result (Makes (asked_does (around_of around.now) op.now) registers.old s.old registers.new s.new) }
    ensures turns { OnOk result (s.new.turns ≡ s.old.turns) }
{
    match op {
        Op::InputCount { d } => {
            put(registers, *d, input_count(s)?);
            Ok(())
        }
        Op::Request {
            handle,
            element,
            amount,
        } => {
            request(around, registers, s, *handle, *element, *amount)?;
            Ok(())
        }
        Op::Increment {
            output,
            element,
            amount,
        } => {
            let asked = Asked {
                output: *output,
                element: *element,
                amount: *amount,
            };
            increment(around, registers, s, asked)?;
            Ok(())
        }
        _ => {
            run_sure(around, op, registers, s);
            Ok(())
        }
    }
}

/// Runs an operation that holds no others and calls no function; of any other it does nothing.
pub fn run_leaf<M: Memory>(
    around: &Around<'_>,
    op: &Op,
    registers: &mut [Word],
    s: &mut Outside,
    mem: &mut M,
) -> Result<End, Halt>
    ensures says { Runs (leaf_does (around_of around.now) op.now) registers.old s.old (M.trace mem.old) result registers.new s.new (M.trace mem.new) }
    ensures kept { Kept (is_quiet_op op.now) s.old.turns s.new.turns (M.trace mem.old) result (M.trace mem.new) }
{
    match op {
        Op::BufferGet { d, buffer, word } => {
            get_buffer(around, registers, s, mem, *d, *buffer, *word)
        }
        Op::BufferPut { buffer, word, a } => {
            set_buffer(around, registers, s, mem, *buffer, *word, *a)
        }
        Op::BufferAdd { buffer, word, a } => {
            add_to_buffer(around, registers, s, mem, *buffer, *word, *a)
        }
        Op::BufferAtomic {
            op,
            d,
            buffer,
            word,
            compare,
            value,
        } => {
            let form = Form {
                op: *op,
                compare: *compare,
                value: *value,
            };
            exchange_in_buffer(around, registers, s, mem, *d, *buffer, *word, form)
        }
        Op::BufferLength { d, buffer } => {
            Ok(length_of_buffer(around, registers, s, mem, *d, *buffer))
        }
        _ => {
            run_asked(around, op, registers, s)?;
            Ok(End::Through)
        }
    }
}
