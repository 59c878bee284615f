ghost use Rattle.std.specs.Prelude.{◌≡◌, ◌/◌, ◌%◌};
ghost use Rattle.wg_state.specs.Lanes.{coordinates_of, dispatch_of};

use wg_words::{Word, add, mul};

fn quotient(a: u32, b: u64) -> u32
    ensures { result ≡ a / b }
{
    match u64::from(a).checked_div(b) {
        Some(q) => q as u32,
        None => 0,
    }
}

fn remainder(a: u32, b: u32) -> u32
    ensures { result ≡ a % b }
{
    match a.checked_rem(b) {
        Some(r) => r,
        None => a,
    }
}

/// The coordinates of a number in a box of so many, x running fastest.
pub fn coordinates(size: [Word; 3], number: u32) -> [Word; 3]
    ensures { result ≡ coordinates_of size number }
{
    let [x, y, _] = size;
    let row = quotient(number, u64::from(x));
    let layer = quotient(number, u64::from(x) * u64::from(y));
    [remainder(number, x), remainder(row, y), layer]
}

/// `SV_DispatchThreadID`: the place of a lane of a group in its record's grid of threads.
pub fn dispatch_place(group: [Word; 3], threads: [Word; 3], lane: u32) -> [Word; 3]
    ensures { result ≡ dispatch_of group threads lane }
{
    let at = coordinates(threads, lane);
    [
        add(mul(group[0], threads[0]), at[0]),
        add(mul(group[1], threads[1]), at[1]),
        add(mul(group[2], threads[2]), at[2]),
    ]
}
