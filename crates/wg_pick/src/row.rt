//! A row of flags in the order of picking.
ghost use Rattle.std.specs.Prelude.{◌≡◌, ℕ, ◌*◌, ◌^◌, ◌<◌, ◌≤◌, IfOk, length, map, replicate, slice_index};
ghost use Rattle.std.specs.Int.{div_ceil};
ghost use Rattle.wg_machine.specs.declared.shape.Unit.{Unit as UnitOf};
ghost use Rattle.wg_words.specs.Words.{is_bit_set};
ghost use Rattle.wg_pick.specs.Row.{is_flagged, IsFirstFrom, IsOrder, HasItsPlace, IsFlagSet};

use std::alloc::{AllocError, Global};
use std::cmp::Reverse;
use wg_machine::Unit;

/// The units in the order of picking: the deepest first, and of equals the least.
pub fn order_of(alloc: Global, depths: &[u32]) -> Result<Vec<u32>, AllocError>
    requires { length depths.now < 2 ^ 32 }
    ensures { IfOk result (λ order. IsOrder depths.now order.items) }
{
    let mut ranked = Vec::with_capacity(alloc, depths.len())?;
    for (unit, depth) in depths.iter().enumerate() {
        ranked.push((Reverse(*depth), unit as u32))?;
    }
    ranked.sort_unstable();
    let order = units_of(alloc, &ranked)?;
    Ok(order)
}

fn units_of(alloc: Global, ranked: &[(Reverse<u32>, u32)]) -> Result<Vec<u32>, AllocError>
    ensures { IfOk result (λ units. units.items ≡ map (λ r. r.1) ranked.now) }
{
    ranked.iter().map(|ranked| ranked.1).collect(alloc)
}

/// The depths of units.
pub fn depths_of(alloc: Global, units: &[Unit]) -> Result<Vec<u32>, AllocError>
    ensures { IfOk result (λ depths. depths.items ≡ map (λ (unit : UnitOf). unit.depth) units.now) }
{
    units.iter().map(|unit| unit.depth).collect(alloc)
}

/// A row in which no place of so many is flagged.
pub fn no_flags(alloc: Global, places: usize) -> Result<Vec<u64>, AllocError>
    ensures { IfOk result (λ flags. flags.items ≡ replicate (div_ceil places 64) 0) }
{
    vec![in alloc; 0; places.div_ceil(64)]
}

/// By unit: its place in the order.
pub fn places_of(alloc: Global, order: &[u32]) -> Result<Vec<u32>, AllocError>
    requires few { length order.now < 2 ^ 32 }
    requires within { (place : ℕ) → place < length order.now → slice_index order.now place < length order.now }
    ensures count { IfOk result (λ places. length places.items ≡ length order.now) }
    ensures placed { IfOk result (λ places. (place : ℕ) → place < length order.now → HasItsPlace order.now places.items (slice_index order.now place)) }
{
    let mut places = vec![in alloc; 0; order.len()]?;
    for (place, unit) in order.iter().enumerate() {
        places[*unit as usize] = place as u32;
    }
    Ok(places)
}

/// Sets the flag of a place.
pub fn set_flag(flags: &mut Vec<u64>, place: u32, is_set: bool)
    requires { place < 64 * length flags.old.items }
    ensures { IsFlagSet flags.old.items flags.new.items place is_set }
{
    let word = place as usize / 64;
    let mask = 1u64 << (place % 64);
    if is_set {
        flags[word] |= mask;
    } else {
        flags[word] &= !mask;
    }
}

/// The first place from one on that is flagged.
pub fn next_flag(flags: &[u64], from: usize) -> Option<usize>
    requires { length flags.now < 2 ^ 32 }
    ensures { IsFirstFrom (is_flagged flags.now) from (64 * length flags.now) result }
{
    let mut low = (from % 64) as u32;
    for word in from / 64..flags.len() {
        if let Some(bit) = next_bit(flags[word], low) {
            return Some(64 * word + bit as usize);
        }
        low = 0;
    }
    None
}

/// The first bit of a word from one on that is 1.
fn next_bit(word: u64, low: u32) -> Option<u32>
    requires { low < 64 }
    ensures { IsFirstFrom (is_bit_set word) low 64 result }
{
    let rest = word >> low;
    if rest == 0 {
        None
    } else {
        Some(low + rest.trailing_zeros())
    }
}
