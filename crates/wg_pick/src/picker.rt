ghost use Rattle.std.specs.Prelude.{◌≡◌, ℕ, ◌<◌, ◌^◌, IfOk, IfSome, true, false, length, slice_set};

use crate::row::{depths_of, next_flag, no_flags, order_of, places_of, set_flag};
use std::alloc::{AllocError, Global};
use std::marker::Model;
use wg_machine::Shape;

/// The units of a graph with their depths, and which of them wait.
#[derive(Debug, Drop)]
pub struct Picker {
    depths: Vec<u32>,
    /// The units in the order of picking.
    order: Vec<u32>,
    /// By unit: its place in the order.
    places: Vec<u32>,
    /// By place, 64 to a word: whether its unit waits.
    flags: Vec<u64>,
}

impl Model for Picker {
    ghost use Rattle.std.specs.Prelude.{map};
    ghost use Rattle.wg_pick.specs.Order.{Waiting};
    ghost use Rattle.wg_pick.specs.Row.{is_flagged, IsRow};

    ghost Value = { Waiting };

    ghost view = { λ p. record { depths = p.depths.items; waits = map (is_flagged p.flags.items) p.places.items } };

    ghost invariant = { λ p. IsRow p.depths.items p.order.items p.places.items p.flags.items };
}

impl Picker {
    ghost use Rattle.wg_pick.specs.Order.{none_waits, IsWaiting, Precedes};

    /// The units of a shape, of which none waits. The later calls take no memory.
    pub fn new(alloc: Global, shape: &Shape) -> Result<Picker, AllocError>
        requires { length shape.now.units < 2 ^ 32 }
        ensures { IfOk result (λ picker. picker ≡ none_waits shape.now) }
    {
        let units = shape.units.as_slice();
        let depths = depths_of(alloc, units)?;
        let order = order_of(alloc, &depths)?;
        let places = places_of(alloc, &order)?;
        let flags = no_flags(alloc, units.len())?;
        Ok(Picker {
            depths,
            order,
            places,
            flags,
        })
    }

    /// Says whether a unit waits.
    pub fn set(&mut self, unit: u32, waits: bool)
        requires { unit < length self.old.waits }
        ensures { self.new ≡ record self.old { waits = slice_set self.old.waits unit waits } }
    {
        let place = self.places[unit as usize];
        set_flag(&mut self.flags, place, waits);
    }

    /// The deepest unit that waits and has room, the least of them; none where there is none.
    ///
    /// `room` is asked of waiting units alone, in the order of picking.
    pub fn pick<F: Fn(u32) -> bool>(&self, room: F) -> Option<u32>
        requires { (u : ℕ) → IsWaiting self.now u → F.pre room u }
        ensures waits { IfSome result (IsWaiting self.now) }
        ensures has_room { IfSome result (λ u. F.post room u true) }

        // Each waiting unit that comes before the answer has no room; where there is none, each.
        ensures first { (u : ℕ) → IsWaiting self.now u → Precedes self.now u result → F.post room u false }
    {
        let mut from = 0;
        while let Some(place) = next_flag(&self.flags, from) {
            let unit = self.order[place];
            if room(unit) {
                return Some(unit);
            }
            from = place + 1;
        }
        None
    }
}

#[cfg(test)]
mod tests {
    use super::*;
    use std::test::Fail;
    use wg_machine::{Kind, NodeNames, Outputs, Unit, Units};
    use wg_words::{Names, Words};

    fn unit(alloc: Global, depth: u32) -> Unit {
        Unit {
            node: 0,
            level: 0,
            depth,
            words: 0,
            stride: 4,
            kind: Kind::Thread,
            entry: false,
            budgets: Words::new(alloc),
            outputs: Outputs::new(alloc),
            bools: Words::new(alloc),
            shared: false,
        }
    }

    /// A picker of four units of these depths.
    fn picker(alloc: Global, depths: [u32; 4]) -> Result<Picker, AllocError>
        ensures { IfOk result (λ picker. length picker.waits ≡ 4) }
    {
        let [a, b, c, d] = depths;
        let units = vec![in alloc;
            unit(alloc, a),
            unit(alloc, b),
            unit(alloc, c),
            unit(alloc, d),
        ]?;
        let shape = Shape {
            nodes: NodeNames::new(alloc),
            units: Units::from_vec(units),
            buffers: Names::new(alloc),
        };
        Picker::new(alloc, &shape)
    }

    #[test]
    fn picks_the_deepest_that_waits_and_has_room_then_the_least(
        rt: HostRuntime,
    ) -> Result<(), Fail> {
        // The depths, which units wait, which have room, and the pick.
        let rows = [
            ([1, 2, 3, 3], [true; 4], [true; 4], Some(2)),
            ([1, 2, 3, 3], [true; 4], [true, true, false, true], Some(3)),
            ([1, 2, 3, 3], [true; 4], [true, true, false, false], Some(1)),
            ([2, 1, 2, 1], [true; 4], [true; 4], Some(0)),
            ([1, 2, 3, 4], [true, false, true, false], [true; 4], Some(2)),
            (
                [1, 2, 3, 4],
                [true, false, true, false],
                [false, true, false, true],
                None,
            ),
            ([1, 2, 3, 4], [false; 4], [true; 4], None),
        ];
        for (depths, waits, rooms, want) in rows {
            let mut picker = picker(rt.alloc(), depths)?;
            picker.set(0, waits[0]);
            picker.set(1, waits[1]);
            picker.set(2, waits[2]);
            picker.set(3, waits[3]);
            assert_eq!(rt; picker.pick(|unit| rooms[unit as usize]), want);
        }
        Ok(())
    }
}
