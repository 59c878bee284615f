ghost use Rattle.std.specs.Prelude.{◌≡◌, ◌+◌, ◌-◌, ◌≤◌, ◌<◌, ℕ, List, Option, length, slice_get, unwrap_or, IfOk};
ghost use Rattle.std.specs.List.{AllZip};
ghost use Rattle.wg_machine.specs.Unrolling.{unrolled};
ghost use Rattle.wg_node_attributes.specs.declared.attributes.NodeAttrs.{NodeAttrs};
ghost use Rattle.wg_shapes.specs.Level.{top_level, top_levels};
ghost use Rattle.wg_shapes.specs.ShapeOf.{arrival};
ghost use Rattle.wg_units.specs.Numbers.{first_unit, AreLevels, IsNodeBelow, IsPlaceOf};
ghost use Rattle.wg_words.specs.Each.{Each};

use crate::levels::Levels;
use std::alloc::{AllocError, Global};
use wg_machine::Targets;
use wg_words::Words;

fn at(numbers: &Words, n: usize) -> u32
    ensures { result ≡ unwrap_or (slice_get numbers.now n) 0 }
{
    match numbers.get(n) {
        Some(number) => *number,
        None => 0,
    }
}

/// The number of the unit of a node at a level.
pub fn own_number(levels: &Levels, n: usize, level: u32) -> u32
    requires lawful { AreLevels levels.now }
    ensures small { result ≤ 8192 }
    ensures number { n < length levels.now.tops → result ≡ first_unit levels.now.tops n + (unwrap_or (slice_get levels.now.tops n) 0 - level) }
{
    at(&levels.firsts, n) + at(&levels.tops, n).saturating_sub(level)
}

/// The unit at which a record arrives that the unit of a node at a level sends to an element: that of the own node one level lower,
/// or the first one of another node; none where there is no such unit.
fn arrives(levels: &Levels, n: usize, level: u32, element: Option<usize>) -> Option<u32>
    requires lawful { AreLevels levels.now }
    ensures { (nodes : List NodeAttrs) → levels.now.tops ≡ top_levels nodes → n < length nodes → level ≤ top_level nodes n → IsNodeBelow (length nodes) element
        → IsPlaceOf (unrolled 0 (top_levels nodes)) (arrival nodes n level element) result }
{
    let Some(m) = element else {
        return None;
    };
    if m != n {
        return Some(at(&levels.firsts, m));
    }
    if level == 0 {
        return None;
    }
    Some(own_number(levels, n, level) + 1)
}

/// The same for each element of an output.
pub fn arrivals(
    alloc: Global,
    levels: &Levels,
    n: usize,
    level: u32,
    elements: &[Option<usize>],
) -> Result<Targets, AllocError>
    requires lawful { AreLevels levels.now }
    ensures { IfOk result (λ r. (nodes : List NodeAttrs) → levels.now.tops ≡ top_levels nodes → n < length nodes → level ≤ top_level nodes n → Each (IsNodeBelow (length nodes)) elements.now
        → AllZip (λ (e : Option ℕ) (t : Option ℕ). IsPlaceOf (unrolled 0 (top_levels nodes)) (arrival nodes n level e) t) elements.now r) }
{
    let mut targets = Targets::new(alloc);
    for e in 0..elements.len() {
        let element = &elements[e];
        targets.push(arrives(levels, n, level, *element))?;
    }
    Ok(targets)
}
