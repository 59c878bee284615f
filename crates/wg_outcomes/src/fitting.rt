ghost use Rattle.std.specs.Prelude.{◌≡◌, ◌<◌, ◌==◌, IfSome, IsTrue, length};
ghost use Rattle.std.specs.List.{list_all};
ghost use Rattle.wg_words.specs.declared.limits.TheConstants.{GRID_BOUND as GROUPS};
ghost use Rattle.wg_machine.specs.Grids.{groups_in};
ghost use Rattle.wg_machine.specs.LaunchMeaning.{FitsShape, HasGridOf};
ghost use Rattle.wg_machine.specs.Units.{words_at};
ghost use Rattle.wg_machine.specs.declared.launch.Record.{Record as OfLaunch};

use wg_machine::{Kind, Launch, Record, Shape, count_groups};
use wg_words::Word;
use wg_words::limits::GRID_BOUND;

fn words_in(shape: &Shape, unit: u32) -> u32
    ensures { result ≡ words_at shape.now unit }
{
    match shape.units.get(unit as usize) {
        Some(unit) => unit.words,
        None => 0,
    }
}

fn have_words(records: &[Record], words: u32) -> bool
    ensures { result ≡ list_all (λ (r : OfLaunch). length r.words == words) records.now }
{
    records
        .iter()
        .all(|record| record.words.len() == words as usize)
}

/// The grid of a launch: that given, or 1 1 1 where a launch has no other.
fn grid_for(kind: Kind, grid: [Word; 3]) -> [Word; 3]
    ensures { HasGridOf kind result }
{
    match kind {
        Kind::Thread => [1, 1, 1],
        Kind::Coalescing { most: _ } => [1, 1, 1],
        Kind::Grid { x: _, y: _, z: _ } => grid,
        Kind::GridField {
            first: _,
            parts: _,
            x: _,
            y: _,
            z: _,
        } => grid,
    }
}

fn has_group(grid: &[Word; 3], group: u32) -> bool
    ensures few { IsTrue result → groups_in grid.now < GROUPS }
    ensures inside { IsTrue result → group < groups_in grid.now }
{
    let groups = count_groups(grid);
    groups < u128::from(GRID_BOUND) && u128::from(group) < groups
}

/// A launch as a shape has it; none where it is none of a unit of the shape, as far as its numbers tell.
pub fn fitting(shape: &Shape, launch: Launch) -> Option<Launch>
    ensures { IfSome result (FitsShape shape.now) }
{
    let Launch {
        unit,
        records,
        group,
        grid,
        last,
    } = launch;
    let kind = shape.kind(unit);
    let grid = grid_for(kind, grid);
    if unit as usize >= shape.units.len() || !has_group(&grid, group) {
        return None;
    }
    let count = records.len();
    if count < 1 || count > kind.most_inputs() as usize {
        return None;
    }
    if !have_words(records.as_slice(), words_in(shape, unit)) {
        return None;
    }
    Some(Launch {
        unit,
        records,
        group,
        grid,
        last,
    })
}
