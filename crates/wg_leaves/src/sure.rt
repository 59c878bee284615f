ghost use Rattle.std.specs.Prelude.{◌≡◌};
ghost use Rattle.wg_registers.specs.Given.{around_of};
ghost use Rattle.wg_registers.specs.declared.outside.Outside.{Outside as OfLanes};
ghost use Rattle.wg_operations.specs.Says.{Makes};
ghost use Rattle.wg_leaves.specs.Leaves.{sure_does, outer_does, records_does, given_does};

use wg_code::Op;
use wg_operations::{
    Form, Place, Spot, complete, get_record, set_input, set_record, shared_atomic,
};
use wg_registers::{
    Around, Outside, combine, combine_halves, has_target, input_word, prefix, put, put_ranged,
    put_shared, ranged_word, truth_word, wide, word,
};
use wg_words::Word;

/// Runs an operation that reads what stays the same; of any other it does nothing.
fn run_given(around: &Around<'_>, op: &Op, registers: &mut [Word])
    ensures { (s : OfLanes) → Makes (given_does (around_of around.now) op.now) registers.old s registers.new s }
{
    match op {
        Op::Level { d } => put(registers, *d, around.level),
        Op::System { d, which } => put(registers, *d, word(&around.numbers, *which)),
        Op::Last { d } => put(registers, *d, truth_word(around.last)),
        Op::Valid { d, output, element } => {
            let is_there = has_target(around.outputs, *output, word(registers, *element));
            put(registers, *d, truth_word(is_there))
        }
        _ => (),
    }
}

/// Runs an operation on new records, or one that reads what stays the same.
fn run_record(around: &Around<'_>, op: &Op, registers: &mut [Word], s: &mut Outside)
    ensures makes { Makes (records_does (around_of around.now) op.now) registers.old s.old registers.new s.new }
    ensures turns { s.new.turns ≡ s.old.turns }
{
    match op {
        Op::RecordGet {
            d,
            handle,
            index,
            from,
            to,
            word,
        } => {
            let at = Spot {
                handle: *handle,
                index: *index,
                from: *from,
                to: *to,
                word: *word,
            };
            get_record(around, registers, s, *d, at)
        }
        Op::RecordPut {
            handle,
            index,
            from,
            to,
            word,
            a,
        } => {
            let at = Spot {
                handle: *handle,
                index: *index,
                from: *from,
                to: *to,
                word: *word,
            };
            set_record(around, registers, s, at, *a)
        }
        Op::Complete { handle } => complete(around, registers, s, *handle),
        _ => run_given(around, op, registers),
    }
}

/// Runs an operation on groupshared words or input records, or one on new records, or one that reads what stays the same.
fn run_outer(around: &Around<'_>, op: &Op, registers: &mut [Word], s: &mut Outside)
    ensures makes { Makes (outer_does (around_of around.now) op.now) registers.old s.old registers.new s.new }
    ensures turns { s.new.turns ≡ s.old.turns }
{
    match op {
        Op::SharedGet { d, from, to, index } => {
            let at = word(registers, *index);
            let value = ranged_word(s.shared.as_slice(), *from, *to, at);
            put(registers, *d, value)
        }
        Op::SharedPut { from, to, index, a } => {
            let at = word(registers, *index);
            put_shared(&mut s.shared, *from, *to, at, word(registers, *a))
        }
        Op::SharedAtomic {
            op,
            d,
            from,
            to,
            index,
            compare,
            value,
        } => {
            let form = Form {
                op: *op,
                compare: *compare,
                value: *value,
            };
            let at = Place {
                from: *from,
                to: *to,
                index: *index,
            };
            shared_atomic(around, registers, s, *d, form, at)
        }
        Op::InputGet { d, input, word: at } => {
            let input = word(registers, *input);
            let value = input_word(&s.world, input, word(registers, *at));
            put(registers, *d, value)
        }
        Op::InputPut { input, word, a } => set_input(around, registers, s, *input, *word, *a),
        _ => run_record(around, op, registers, s),
    }
}

/// Runs an operation that cannot fail: on registers or on what lanes share; of any other it does nothing.
pub fn run_sure(around: &Around<'_>, op: &Op, registers: &mut [Word], s: &mut Outside)
    ensures makes { Makes (sure_does (around_of around.now) op.now) registers.old s.old registers.new s.new }
    ensures turns { s.new.turns ≡ s.old.turns }
{
    match op {
        Op::Set { d, value } => put(registers, *d, *value),
        Op::Copy { d, a } => {
            let value = word(registers, *a);
            put(registers, *d, value)
        }
        Op::Unary { op, d, a } => {
            let value = prefix(*op, word(registers, *a));
            put(registers, *d, value)
        }
        Op::Binary { op, d, a, b } => {
            let value = combine(*op, word(registers, *a), word(registers, *b));
            put(registers, *d, value)
        }
        Op::Half { op, d, a, b } => {
            let value = combine_halves(*op, word(registers, *a), word(registers, *b));
            put(registers, *d, value)
        }
        Op::Wide { op, d, a, b } => wide(registers, *op, *d, *a, *b),
        Op::LocalGet { d, from, to, index } => {
            let value = ranged_word(registers, *from, *to, word(registers, *index));
            put(registers, *d, value)
        }
        Op::LocalPut { from, to, index, a } => {
            let at = word(registers, *index);
            let value = word(registers, *a);
            put_ranged(registers, *from, *to, at, value)
        }
        _ => run_outer(around, op, registers, s),
    }
}
