ghost use Rattle.std.specs.Prelude.{◌≡◌, ◌++◌, [], ◌∷◌, map, OnOk, IfOk, slice_index};
ghost use Rattle.std.specs.List.{flat_map, range_with_len};
ghost use Rattle.wg_machine.specs.Grids.{groups_of};

use std::alloc::{AllocError, Global};
use wg_machine::Groups;

fn push_row(groups: &mut Groups, count: u32, y: u32, z: u32) -> Result<(), AllocError>
    ensures { OnOk result (groups.new ≡ groups.old ++ map (λ x. x ∷ y ∷ z ∷ []) (range_with_len 0 count)) }
{
    for x in 0..count {
        groups.push([x, y, z])?;
    }
    Ok(())
}

fn push_plane(groups: &mut Groups, grid: &[u32; 3], z: u32) -> Result<(), AllocError>
    ensures { OnOk result (groups.new ≡ groups.old ++ flat_map (λ y. map (λ x. x ∷ y ∷ z ∷ []) (range_with_len 0 (slice_index grid.now 0))) (range_with_len 0 (slice_index grid.now 1))) }
{
    for y in 0..grid[1] {
        push_row(groups, grid[0], y, z)?;
    }
    Ok(())
}

/// The groups of a grid, x running fastest.
pub fn groups_for(alloc: Global, grid: &[u32; 3]) -> Result<Groups, AllocError>
    ensures { IfOk result (λ groups. groups ≡ groups_of grid.now) }
{
    let mut groups = Groups::new(alloc);
    for z in 0..grid[2] {
        push_plane(&mut groups, grid, z)?;
    }
    Ok(groups)
}
