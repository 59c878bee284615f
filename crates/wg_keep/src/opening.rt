ghost use Rattle.std.specs.Prelude.{◌≡◌, ◌+◌, ◌<◌, ◌≤◌, ◌↔◌, ◌∷◌, [], IsTrue};
ghost use Rattle.wg_words.specs.declared.limits.TheConstants.{GRID_BOUND};
ghost use Rattle.wg_machine.specs.Grids.{groups_in};
ghost use Rattle.wg_keep.specs.Opening.{IsOpening, begun, unopened_groups};

use crate::group::group_at;
use wg_machine::count_groups;

/// The groups of a record: those of the grid of its birth from `opened` on wait, and `left` of them have not settled.
#[derive(Clone, Copy, Debug, PartialEq, Eq)]
pub struct Opening {
    pub grid: [u32; 3],
    pub opened: u32,
    pub left: u32,
}

impl Opening {
    /// The groups of a record of which none was opened.
    pub fn new(grid: [u32; 3]) -> Opening
        requires { groups_in grid < GRID_BOUND }
        ensures begun { result ≡ begun grid }
        ensures sound { IsOpening result }
    {
        Opening {
            grid,
            opened: 0,
            left: count_groups(&grid) as u32,
        }
    }

    /// Whether all groups are opened.
    pub fn is_opened(&self) -> bool
        requires { IsOpening self.now }
        ensures { IsTrue result ↔ (unopened_groups self.now ≡ []) }
    {
        u128::from(self.opened) == count_groups(&self.grid)
    }

    /// Whether but one group has not settled.
    pub fn is_last(&self) -> bool
        ensures { IsTrue result ↔ (self.now.left ≡ 1) }
    {
        self.left == 1
    }

    /// Opens the next group, and gives its coordinates.
    pub fn open(&mut self) -> [u32; 3]
        requires sound { IsOpening self.old }
        requires some { self.old.opened < groups_in self.old.grid }
        ensures opens { unopened_groups self.old ≡ result ∷ unopened_groups self.new }
        ensures same { self.new ≡ record self.old { opened = self.old.opened + 1 } }
        ensures sound { IsOpening self.new }
    {
        let at = group_at(&self.grid, self.opened);
        self.opened += 1;
        at
    }

    /// Counts one group more as settled, and says whether it was the last.
    pub fn settle(&mut self) -> bool
        requires sound { IsOpening self.old }
        requires some { 1 ≤ self.old.left }
        ensures fewer { self.new.left + 1 ≡ self.old.left }
        ensures same { self.new ≡ record self.old { left = self.new.left } }
        ensures last { IsTrue result ↔ (self.new.left ≡ 0) }
        ensures sound { IsOpening self.new }
    {
        self.left -= 1;
        self.left == 0
    }
}

#[cfg(test)]
mod tests {
    use super::*;
    use std::test::Fail;

    /// A grid of two groups, as the rule that x runs fastest has them.
    #[test]
    fn groups_open_in_order_and_the_last_to_settle_ends_the_record(
        rt: HostRuntime,
    ) -> Result<(), Fail> {
        let mut groups = Opening::new([2, 1, 1]);
        assert_eq!(rt; groups.open(), [0, 0, 0]);
        assert_eq!(rt; groups.open(), [1, 0, 0]);
        assert!(rt; groups.is_opened());
        assert!(rt; !groups.settle());
        assert!(rt; groups.is_last());
        assert!(rt; groups.settle());
        Ok(())
    }
}
