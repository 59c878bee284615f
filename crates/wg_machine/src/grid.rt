ghost use Rattle.std.specs.Prelude.{◌≡◌, ◌<◌, ◌^◌, ◌+◌};
ghost use Rattle.wg_machine.specs.Grids.{clipped, grid_of, groups_in, place_of, same_group};

use crate::shape::Kind;
use wg_words::Word;

fn clip(first: u32, parts: u32, words: &[Word], k: u32, most: u32) -> u32
    ensures { result ≡ clipped first parts words.now k most }
{
    if k < parts {
        let given = words.get(first as usize + k as usize).copied().unwrap_or(0);
        most.min(given)
    } else {
        1
    }
}

impl Kind {
    /// The grid of thread groups that a record of these words launches (Work Graphs, "Broadcasting launch nodes").
    pub fn grid(self, words: &[Word]) -> [u32; 3]
        ensures { result ≡ grid_of self words.now }
    {
        match self {
            Kind::Thread => [1, 1, 1],
            Kind::Coalescing { most: _ } => [1, 1, 1],
            Kind::Grid { x, y, z } => [x, y, z],
            Kind::GridField {
                first,
                parts,
                x,
                y,
                z,
            } => [
                clip(first, parts, words, 0, x),
                clip(first, parts, words, 1, y),
                clip(first, parts, words, 2, z),
            ],
        }
    }
}

/// How many groups a grid has.
pub fn count_groups(grid: &[u32; 3]) -> u128
    ensures { result ≡ groups_in grid.now }
{
    u128::from(grid[0]) * u128::from(grid[1]) * u128::from(grid[2])
}

/// A group's linear number in its grid, where that has 32 bits.
pub fn linear_place(grid: &[u32; 3], at: &[u32; 3]) -> u32
    ensures { place_of grid.now at.now < 2 ^ 32 → result ≡ place_of grid.now at.now }
{
    let plane = u128::from(at[2]) * u128::from(grid[0]) * u128::from(grid[1]);
    let row = u128::from(at[1]) * u128::from(grid[0]);
    u32::try_from(plane + row + u128::from(at[0])).unwrap_or(0)
}

/// Whether two groups are the same.
pub fn is_same_group(a: &[u32; 3], b: &[u32; 3]) -> bool
    ensures { result ≡ same_group a.now b.now }
{
    a[0] == b[0] && a[1] == b[1] && a[2] == b[2]
}
