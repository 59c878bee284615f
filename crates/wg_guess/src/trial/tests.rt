use super::*;
use std::test::Fail;
use wg_buffers::Buffers;
use wg_words::Words;

/// What a launch did to the word before.
#[derive(Clone, Copy)]
enum Before {
    Nothing,
    Load,
    Store(Word),
    Add(Word),
}

/// An interlocked form at a word of a buffer of 5 and 0xfffffffe, with its compare value and its value.
#[derive(Clone, Copy)]
struct Form {
    before: Before,
    op: Atomic,
    word: u32,
    compare: Word,
    value: Word,
}

fn begin<V: View>(trial: &mut Trial<'_, V>, word: u32, before: Before) -> Result<(), AllocError> {
    match before {
        Before::Nothing => Ok(()),
        Before::Load => {
            trial.load(0, word)?;
            Ok(())
        }
        Before::Store(value) => trial.store(0, word, value),
        Before::Add(value) => trial.add(0, word, value),
    }
}

/// The old word, the new one as it is then read, and how many words were logged.
fn tried<V: View>(alloc: Global, view: &V, form: Form) -> Result<(Word, Word, usize), AllocError> {
    let mut trial = Trial::new(alloc, view);
    begin(&mut trial, form.word, form.before)?;
    let found = trial.interlocked(form.op, 0, form.word, form.compare, form.value)?;
    let left = trial.load(0, form.word)?;
    Ok((found, left, trial.log.len()))
}

/// A form on a word, and what it finds, leaves and has logged.
type Row = (Before, Atomic, u32, Word, Word, (Word, Word, usize));

const ROWS: [Row; 14] = [
    (Before::Nothing, Atomic::Min, 1, 0, 3, (0xffff_fffe, 3, 1)),
    (
        Before::Nothing,
        Atomic::MinSigned,
        1,
        0,
        3,
        (0xffff_fffe, 0xffff_fffe, 1),
    ),
    (
        Before::Load,
        Atomic::Max,
        1,
        0,
        3,
        (0xffff_fffe, 0xffff_fffe, 1),
    ),
    (
        Before::Load,
        Atomic::MaxSigned,
        1,
        0,
        3,
        (0xffff_fffe, 3, 1),
    ),
    (Before::Store(12), Atomic::And, 0, 0, 10, (12, 8, 0)),
    (Before::Store(12), Atomic::Or, 0, 0, 3, (12, 15, 0)),
    (Before::Add(7), Atomic::Xor, 0, 0, 10, (12, 6, 1)),
    (Before::Add(1), Atomic::Add, 1, 0, 3, (0xffff_ffff, 2, 1)),
    (Before::Load, Atomic::Exchange, 0, 0, 9, (5, 9, 1)),
    (Before::Nothing, Atomic::CompareExchange, 0, 5, 9, (5, 9, 1)),
    (Before::Add(1), Atomic::CompareExchange, 0, 5, 9, (6, 6, 1)),
    (
        Before::Store(12),
        Atomic::CompareExchange,
        0,
        12,
        9,
        (12, 9, 0),
    ),
    (Before::Nothing, Atomic::Add, 2, 0, 3, (0, 0, 0)),
    (Before::Store(12), Atomic::Exchange, 2, 0, 9, (0, 0, 0)),
];

#[test]
fn forms_see_what_the_launch_wrote_and_log_what_it_did_not(rt: HostRuntime) -> Result<(), Fail> {
    let alloc = rt.alloc();
    let start = [Words::from_slice(alloc, &[5, 0xffff_fffe])?];
    let buffers = Buffers::new(alloc, &[2], &start)?;
    for (before, op, word, compare, value, want) in ROWS {
        let form = Form {
            before,
            op,
            word,
            compare,
            value,
        };
        assert_eq!(rt; tried(alloc, &buffers, form)?, want);
    }
    Ok(())
}
