ghost use Rattle.std.specs.Prelude.{◌≡◌, ◌≤◌, ◌<◌, ◌+◌, ◌^◌, drop, length};
ghost use Rattle.wg_keep.specs.Entries.{IsAtGroup, has_groups, left_from};

use wg_machine::{Sent, Shape, count_groups};

/// The place of the first of the entries from one on that has a group. An entry without one is never opened.
pub fn next_entry(shape: &Shape, entries: &[Sent], from: usize) -> usize
    requires { from ≤ length entries.now }
    ensures low { from ≤ result }
    ensures high { result ≤ length entries.now }
    ensures same { left_from shape.now result entries.now ≡ left_from shape.now from entries.now }
    ensures group { IsAtGroup shape.now result entries.now }
{
    for place in from..entries.len() {
        if has_group(shape, &entries[place]) {
            return place;
        }
    }
    entries.len()
}

/// Whether a record has a group.
fn has_group(shape: &Shape, sent: &Sent) -> bool
    ensures { result ≡ has_groups shape.now sent.now }
{
    let grid = shape.kind(sent.unit).grid(sent.words.as_slice());
    count_groups(&grid) > 0
}
