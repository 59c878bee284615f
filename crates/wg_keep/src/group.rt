ghost use Rattle.std.specs.Prelude.{◌≡◌, ◌<◌, slice_get, Some};
ghost use Rattle.wg_machine.specs.Grids.{groups_in, groups_of, place_of};

/// The coordinates of a group of a grid, by its linear number.
pub fn group_at(grid: &[u32; 3], place: u32) -> [u32; 3]
    requires { place < groups_in grid.now }
    ensures group { slice_get (groups_of grid.now) place ≡ Some result }
    ensures place { place_of grid.now result ≡ place }
{
    let row = place / grid[0];
    [place % grid[0], row % grid[1], row / grid[1]]
}
