ghost use Rattle.std.specs.Prelude.{◌≡◌, ℕ, List, length};
ghost use Rattle.wg_machine.specs.Grids.{groups_in, groups_of};

/// A grid has as many groups as its count says.
pub fn groups_are_counted()
    ensures { (grid : List ℕ) → length (groups_of grid) ≡ groups_in grid }
{}
