ghost use Rattle.std.specs.Prelude.{◌≡◌, ℕ, ◌*◌, ◌^◌, ◌<◌, ◌≤◌, max, length, slice_index, IfOk, IfErr, OnOk};
ghost use Rattle.wg_machine.specs.Bytes.{plan_bytes, least as least_bytes};
ghost use Rattle.wg_machine.specs.Need.{most};
ghost use Rattle.wg_need.specs.Rows.{need_in, IsSoundRow};
ghost use Rattle.wg_plan.specs.Limits.{IsSmall};
ghost use Rattle.wg_plan.specs.Plan.{width_for as width_in, IsAffordable, IsCause};

use crate::answer::{Plan, PlanFault};
use std::alloc::{AllocError, Global};
use wg_machine::Shape;
use wg_need::{Need, needs_of};
use wg_words::Words;

/// The greatest number of launches out at a time.
const MOST_WIDTH: u32 = 64;

/// The greatest number of bytes of a plan without given bytes.
const MOST_BYTES: u64 = 0x4000_0000;

/// The plan of a shape, for given bytes or for a width of 1 to 64 launches out.
pub fn plan(alloc: Global, shape: &Shape, bytes: Option<u64>, width: u32) -> Result<Plan, PlanFault>
    requires small { IsSmall shape.now }
    requires some { 1 ≤ width }
    requires few { width ≤ 64 }
    ensures width { IfOk result (λ plan. plan.width ≡ width_in bytes width (least_bytes shape.now)) }
    ensures count { IfOk result (λ plan. length plan.slots ≡ length shape.now.units) }
    ensures slots { IfOk result (λ plan. (v : ℕ) → v < length plan.slots → slice_index plan.slots v ≡ plan.width * most shape.now v) }
    ensures least { IfOk result (λ plan. plan.least ≡ least_bytes shape.now) }
    ensures greatest { IfOk result (λ plan. plan.greatest ≡ plan_bytes shape.now 64) }
    ensures bytes { IfOk result (λ plan. plan.bytes ≡ plan_bytes shape.now plan.width) }

    // Each fault comes exactly with its cause, but for want of memory.
    ensures fits { OnOk result (IsAffordable bytes width (least_bytes shape.now)) }
    ensures causes { IfErr result (IsCause bytes width (least_bytes shape.now)) }
{
    let mosts = mosts_of(alloc, shape)?;
    let least = least_of(shape, &mosts);
    let width = width_for(bytes, width, least)?;
    let slots = slots_of(alloc, width, &mosts)?;
    Ok(Plan {
        width,
        slots,
        least,
        greatest: u64::from(MOST_WIDTH) * least,
        bytes: u64::from(width) * least,
    })
}

/// The width for given bytes, or the given one.
fn width_for(bytes: Option<u64>, width: u32, least: u64) -> Result<u32, PlanFault>
    requires few { width ≤ 64 }
    requires small { least ≤ 2 ^ 40 }
    ensures width { IfOk result (λ wide. wide ≡ width_in bytes width least) }
    ensures fits { OnOk result (IsAffordable bytes width least) }
    ensures causes { IfErr result (IsCause bytes width least) }
{
    match bytes {
        Some(given) if given < least => Err(PlanFault::TooSmall { need: least, given }),
        Some(_) if least == 0 => Ok(width),
        Some(given) => Ok((given / least).min(u64::from(MOST_WIDTH)) as u32),
        None => {
            let need = u64::from(width) * least;
            if need > MOST_BYTES {
                return Err(PlanFault::TooLarge { need });
            }
            Ok(width)
        }
    }
}

/// The greatest need of each unit.
fn mosts_of(alloc: Global, shape: &Shape) -> Result<Vec<u32>, AllocError>
    requires { IsSmall shape.now }
    ensures count { IfOk result (λ mosts. length mosts.items ≡ length shape.now.units) }
    ensures mosts { IfOk result (λ mosts. (v : ℕ) → v < length mosts.items → slice_index mosts.items v ≡ most shape.now v) }
    ensures few { IfOk result (λ mosts. (v : ℕ) → slice_index mosts.items v ≤ 16384) }
{
    let rows = needs_of(alloc, shape)?;
    let mut mosts = vec![in alloc; 0; rows.len()]?;
    for place in 0..rows.len() {
        raise(&mut mosts, rows.row(place));
    }
    Ok(mosts)
}

/// Raises each number to the need of its unit where that is greater.
fn raise(mosts: &mut [u32], needs: &[Need])
    requires sound { IsSoundRow (length mosts.old) needs.now }
    requires few { (v : ℕ) → v < length mosts.old → need_in needs.now v < 2 ^ 32 }
    ensures { (v : ℕ) → slice_index mosts.new v ≡ max (slice_index mosts.old v) (need_in needs.now v) }
{
    for need in needs {
        let unit = need.unit as usize;
        mosts[unit] = mosts[unit].max(need.records as u32);
    }
}

/// The bytes of the greatest need of each unit.
fn least_of(shape: &Shape, mosts: &[u32]) -> u64
    requires small { IsSmall shape.now }
    requires count { length mosts.now ≡ length shape.now.units }
    requires mosts { (v : ℕ) → v < length mosts.now → slice_index mosts.now v ≡ most shape.now v }
    requires few { (v : ℕ) → slice_index mosts.now v ≤ 16384 }
    ensures least { result ≡ least_bytes shape.now }
    ensures small { result ≤ 2 ^ 40 }
{
    let mut least = 0;
    for (place, unit) in shape.units.as_slice().iter().enumerate() {
        least += u64::from(mosts[place]) * u64::from(unit.stride);
    }
    least
}

/// The slots of each unit at a width.
fn slots_of(alloc: Global, width: u32, mosts: &[u32]) -> Result<Words, AllocError>
    requires width { width ≤ 64 }
    requires few { (v : ℕ) → slice_index mosts.now v ≤ 16384 }
    ensures count { IfOk result (λ slots. length slots ≡ length mosts.now) }
    ensures slots { IfOk result (λ slots. (v : ℕ) → slice_index slots v ≡ width * slice_index mosts.now v) }
{
    let mut slots = Words::new(alloc);
    for most in mosts {
        slots.push(width * *most)?;
    }
    Ok(slots)
}

#[cfg(test)]
mod tests;
