ghost use Rattle.std.specs.Prelude.{◌≡◌, ◌+◌, ◌<◌, ◌↔◌, length, take, IsTrue};
ghost use Rattle.wg_words.specs.Each.{Each};
ghost use Rattle.wg_machine.specs.Units.{depth_at};
ghost use Rattle.wg_store.specs.declared.item.Item.{Item as ItemOf};
ghost use Rattle.wg_store.specs.Best.{ComesBefore, IsBestOf, IsDeeperOf};

use crate::item::Item;
use wg_machine::Shape;
use wg_room::Room;

/// Of the units of records that wait, the deepest that has room, then the least.
pub fn best_unit(shape: &Shape, room: &Room, items: &[Item]) -> Option<u32>
    requires { Each (λ (x : ItemOf). x.unit < length room.now.bounds) items.now }
    ensures { IsBestOf shape.now room.now items.now result }
{
    let mut best = None;
    for place in 0..items.len() {
        best = better(shape, room, items, place, best);
    }
    best
}

// The best of the records up to a place, where it is that of those before it.
fn better(
    shape: &Shape,
    room: &Room,
    items: &[Item],
    place: usize,
    best: Option<u32>,
) -> Option<u32>
    requires units { Each (λ (x : ItemOf). x.unit < length room.now.bounds) items.now }
    requires place { place < length items.now }
    requires so_far { IsBestOf shape.now room.now (take place items.now) best }
    ensures { IsBestOf shape.now room.now (take (place + 1) items.now) result }
{
    let item = &items[place];
    if !item.waits() {
        return best;
    }
    if !room.has_room(item.unit) {
        return best;
    }
    Some(deeper(shape, item.unit, best))
}

// The unit that comes first of one and the best so far.
fn deeper(shape: &Shape, unit: u32, best: Option<u32>) -> u32
    ensures { IsDeeperOf shape.now unit best result }
{
    let Some(other) = best else {
        return unit;
    };
    if comes_before(shape, unit, other) {
        return unit;
    }
    other
}

// Whether a unit is deeper than another, or as deep with the lesser number.
fn comes_before(shape: &Shape, unit: u32, other: u32) -> bool
    ensures { IsTrue result ↔ ComesBefore shape.now unit other }
{
    let (depth, other_depth) = (depth_of(shape, unit), depth_of(shape, other));
    depth > other_depth || (depth == other_depth && unit < other)
}

fn depth_of(shape: &Shape, unit: u32) -> u32
    ensures { result ≡ depth_at shape.now unit }
{
    match shape.units.get(unit as usize) {
        Some(node) => node.depth,
        None => 0,
    }
}
