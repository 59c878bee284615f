ghost use Rattle.std.specs.Prelude.{◌≡◌, ◌<◌, ◌≤◌, ◌+◌};
ghost use Rattle.wg_words.specs.declared.limits.TheConstants.{GRID_BOUND};
ghost use Rattle.wg_machine.specs.Grids.{grid_of, groups_in};
ghost use Rattle.wg_machine.specs.Units.{kind_at};

use wg_keep::Opening;
use wg_machine::{Sent, Shape, count_groups};
use wg_words::Words;

/// A record that is not consumed, with what is opened of its groups.
///
/// An entry record that is consumed stays, with no group left.
#[derive(Debug, Drop)]
pub struct Item {
    pub number: u64,
    pub unit: u32,
    pub words: Words,
    pub opening: Opening,
}

impl Item {
    ghost use Rattle.wg_store.specs.Items.{has_left, item_of, waits_item};

    /// A record that comes to be, of which no group is opened.
    pub fn new(shape: &Shape, number: u64, sent: Sent) -> Item
        requires { groups_in (grid_of (kind_at shape.now sent.unit) sent.words) < GRID_BOUND }
        ensures { result ≡ item_of shape.now number sent }
    {
        let Sent { unit, words } = sent;
        let grid = shape.kind(unit).grid(words.as_slice());
        Item {
            number,
            unit,
            words,
            opening: Opening::new(grid),
        }
    }

    /// Whether a group of the record is not opened.
    pub fn waits(&self) -> bool
        ensures { result ≡ waits_item self.now }
    {
        u128::from(self.opening.opened) < count_groups(&self.opening.grid)
    }

    /// Whether a group of the record has not settled.
    pub fn has_left(&self) -> bool
        ensures { result ≡ has_left self.now }
    {
        self.opening.left > 0
    }
}
