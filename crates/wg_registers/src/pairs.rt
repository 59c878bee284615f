ghost use Rattle.std.specs.Prelude.{◌≡◌, ◌≤◌, ◌<◌, ◌+◌, ◌%◌, ◌/◌, ◌^◌, if◌then◌else◌, slice_index, slice_set, List, ℕ};
ghost use Rattle.wg_code.specs.Operators.{binary, is_comparison, paired};

use crate::operators::{combine_64, compare_64};
use crate::words::{high_word, low_word, pair, put, put_behind};
use wg_words::Word;

fn put_pair(registers: &mut [Word], d: u32, value: u64)
    ensures { registers.new ≡ slice_set (slice_set registers.old d (value % 2 ^ 32)) (d + 1) (value / 2 ^ 32) }
{
    put(registers, d, low_word(value));
    put_behind(registers, d, high_word(value));
}

/// An operator on two numbers of 64 bits, each in two registers; a comparison writes one.
pub fn wide(registers: &mut [Word], op: u32, d: u32, a: u32, b: u32)
    ensures { let v = binary 64 op (paired (slice_index registers.old a) (slice_index registers.old (a + 1))) (paired (slice_index registers.old b) (slice_index registers.old (b + 1))) in
        registers.new ≡ (if is_comparison op then slice_set registers.old d v else slice_set (slice_set registers.old d (v % 2 ^ 32)) (d + 1) (v / 2 ^ 32)) }
{
    let x = pair(registers, a);
    let y = pair(registers, b);
    if op >= 13 {
        put(registers, d, compare_64(op, x, y));
    } else {
        put_pair(registers, d, combine_64(op, x, y));
    }
}
