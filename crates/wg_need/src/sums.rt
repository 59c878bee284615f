ghost use Rattle.std.specs.Prelude.{◌≡◌, ℕ, ◌+◌, ◌<◌, ◌≤◌, ◌||◌, ◌==◌, if◌then◌else◌, length, take, drop, IfOk, OnOk, IsTrue};
ghost use Rattle.std.specs.List.{list_any};
ghost use Rattle.wg_machine.specs.Need.{is_target, reaches, need_from};
ghost use Rattle.wg_need.specs.Rows.{need_in, IsSoundRow};
ghost use Rattle.wg_need.specs.Scratch.{AreOrdered, IsCursor, IsOpenRow, is_on, owed, seen_at};

use crate::table::Need;
use std::alloc::AllocError;
use wg_machine::Output;

/// One more than the index of a unit's need in the block of needs, and the last budget that was added to it.
#[derive(Clone, Copy)]
pub struct Seen {
    pub place: usize,
    pub budget: usize,
}

/// A budget's number and its `MaxRecords`.
#[derive(Clone, Copy)]
pub struct Budget {
    pub number: usize,
    pub most: u32,
}

/// Adds a row to needs: how many records one launch of a unit with these outputs and budgets may send to each unit. It
/// takes the time of the targets where the outputs stand in the order of their budgets, as it may be `seen` by unit.
pub fn sum_up(
    outputs: &[Output],
    budgets: &[u32],
    seen: &mut [Seen],
    needs: &mut Vec<Need>,
) -> Result<(), AllocError>
    requires low { (v : ℕ) → (seen_at seen.old v).place ≤ length needs.old.items }
    ensures needs { OnOk result ((v : ℕ) → v < length seen.old → need_in (drop (length needs.old.items) needs.new.items) v ≡ need_from outputs.now 0 budgets.now v) }
    ensures sound { OnOk result (IsSoundRow (length seen.old) (drop (length needs.old.items) needs.new.items)) }
    ensures kept { OnOk result (take (length needs.old.items) needs.new.items ≡ needs.old.items) }
    ensures longer { OnOk result (length needs.old.items ≤ length needs.new.items) }
    ensures low { OnOk result ((v : ℕ) → (seen_at seen.new v).place ≤ length needs.new.items) }
{
    let start = needs.len();
    let ordered = is_ordered(outputs);
    let mut at = 0;
    for (number, most) in budgets.iter().enumerate() {
        let budget = Budget {
            number,
            most: *most,
        };
        at = add_budget(outputs, ordered, at, budget, start, seen, needs)?;
    }
    Ok(())
}

/// Whether outputs stand in the order of their budgets.
fn is_ordered(outputs: &[Output]) -> bool
    ensures { IsTrue result → AreOrdered outputs.now }
{
    let mut least = 0;
    for output in outputs {
        if output.budget < least {
            return false;
        }
        least = output.budget;
    }
    true
}

/// Adds a budget to the units that its outputs target. In ordered outputs they begin at a place, and it gives the next.
fn add_budget(
    outputs: &[Output],
    ordered: bool,
    at: usize,
    budget: Budget,
    start: usize,
    seen: &mut [Seen],
    needs: &mut Vec<Need>,
) -> Result<usize, AllocError>
    requires ordered { IsTrue ordered → AreOrdered outputs.now }
    requires cursor { IsTrue ordered → IsCursor outputs.now budget.number at }
    requires open { IsOpenRow start budget.number seen.old needs.old.items }
    ensures cursor { IfOk result (λ next. IsTrue ordered → IsCursor outputs.now (budget.number + 1) next) }
    ensures open { OnOk result (IsOpenRow start (budget.number + 1) seen.new needs.new.items) }
    ensures kept { OnOk result (take start needs.new.items ≡ take start needs.old.items) }
    ensures sums { OnOk result ((v : ℕ) → v < length seen.old → need_in (drop start needs.new.items) v ≡ need_in (drop start needs.old.items) v + (if reaches outputs.now budget.number v then budget.most else 0)) }
{
    if ordered {
        return add_run(outputs, at, budget, start, seen, needs);
    }
    add_all(outputs, budget, start, seen, needs)?;
    Ok(at)
}

/// Adds a budget to the units that its outputs target, where these stand together at a place. It gives the place behind.
fn add_run(
    outputs: &[Output],
    from: usize,
    budget: Budget,
    start: usize,
    seen: &mut [Seen],
    needs: &mut Vec<Need>,
) -> Result<usize, AllocError>
    requires ordered { AreOrdered outputs.now }
    requires cursor { IsCursor outputs.now budget.number from }
    requires open { IsOpenRow start budget.number seen.old needs.old.items }
    ensures cursor { IfOk result (IsCursor outputs.now (budget.number + 1)) }
    ensures open { OnOk result (IsOpenRow start (budget.number + 1) seen.new needs.new.items) }
    ensures kept { OnOk result (take start needs.new.items ≡ take start needs.old.items) }
    ensures sums { OnOk result ((v : ℕ) → v < length seen.old → need_in (drop start needs.new.items) v ≡ need_in (drop start needs.old.items) v + (if reaches outputs.now budget.number v then budget.most else 0)) }
{
    let mut at = from;
    while at < outputs.len() && outputs[at].budget as usize == budget.number {
        add_targets(outputs[at].elements.as_slice(), budget, start, seen, needs)?;
        at += 1;
    }
    Ok(at)
}

/// Adds a budget to the units that its outputs target, wherever these stand.
fn add_all(
    outputs: &[Output],
    budget: Budget,
    start: usize,
    seen: &mut [Seen],
    needs: &mut Vec<Need>,
) -> Result<(), AllocError>
    requires open { IsOpenRow start budget.number seen.old needs.old.items }
    ensures open { OnOk result (IsOpenRow start (budget.number + 1) seen.new needs.new.items) }
    ensures kept { OnOk result (take start needs.new.items ≡ take start needs.old.items) }
    ensures sums { OnOk result ((v : ℕ) → v < length seen.old → need_in (drop start needs.new.items) v ≡ need_in (drop start needs.old.items) v + (if reaches outputs.now budget.number v then budget.most else 0)) }
{
    for output in outputs {
        if output.budget as usize == budget.number {
            add_targets(output.elements.as_slice(), budget, start, seen, needs)?;
        }
    }
    Ok(())
}

/// Adds a budget of some records once to each unit that an element targets and that it was not added to.
fn add_targets(
    elements: &[Option<u32>],
    budget: Budget,
    start: usize,
    seen: &mut [Seen],
    needs: &mut Vec<Need>,
) -> Result<(), AllocError>
    requires open { IsOpenRow start (budget.number + 1) seen.old needs.old.items }
    ensures open { OnOk result (IsOpenRow start (budget.number + 1) seen.new needs.new.items) }
    ensures kept { OnOk result (take start needs.new.items ≡ take start needs.old.items) }
    ensures on { OnOk result (0 < budget.most → (v : ℕ) → v < length seen.old → is_on start budget.number seen.new v ≡ (is_on start budget.number seen.old v || list_any (is_target v) elements.now)) }
    ensures sums { OnOk result ((v : ℕ) → v < length seen.old → need_in (drop start needs.new.items) v + owed budget start seen.old v ≡ need_in (drop start needs.old.items) v + owed budget start seen.new v) }
{
    if budget.most == 0 {
        return Ok(());
    }
    for target in elements {
        if let Some(target) = target {
            add(*target, budget, start, seen, needs)?;
        }
    }
    Ok(())
}

/// Adds a budget to a unit, if it was not added to it.
fn add(
    target: u32,
    budget: Budget,
    start: usize,
    seen: &mut [Seen],
    needs: &mut Vec<Need>,
) -> Result<(), AllocError>
    requires open { IsOpenRow start (budget.number + 1) seen.old needs.old.items }
    requires some { 0 < budget.most }
    ensures open { OnOk result (IsOpenRow start (budget.number + 1) seen.new needs.new.items) }
    ensures kept { OnOk result (take start needs.new.items ≡ take start needs.old.items) }
    ensures on { OnOk result ((v : ℕ) → v < length seen.old → is_on start budget.number seen.new v ≡ (is_on start budget.number seen.old v || (target == v))) }
    ensures sums { OnOk result ((v : ℕ) → v < length seen.old → need_in (drop start needs.new.items) v + owed budget start seen.old v ≡ need_in (drop start needs.old.items) v + owed budget start seen.new v) }
{
    let unit = target as usize;
    if unit >= seen.len() {
        return Ok(());
    }
    let place = seen[unit].place;
    if place <= start {
        needs.push(Need {
            unit: target,
            records: u128::from(budget.most),
        })?;
        seen[unit] = Seen {
            place: needs.len(),
            budget: budget.number,
        };
    } else if seen[unit].budget != budget.number {
        needs[place - 1].records += u128::from(budget.most);
        seen[unit].budget = budget.number;
    }
    Ok(())
}
