ghost use Rattle.std.specs.Prelude.{◌≡◌, ◌≤◌, ◌<◌, ◌+◌, ◌*◌, ◌^◌, ℕ, [], length, slice_index, IfOk};
ghost use Rattle.wg_words.specs.Each.{Each};
ghost use Rattle.wg_machine.specs.declared.launch.Entry.{Entry as EntryOf};
ghost use Rattle.wg_machine.specs.Bytes.{plan_bytes};
ghost use Rattle.wg_machine.specs.Need.{most};
ghost use Rattle.wg_standing.specs.Core.{core_begun};
ghost use Rattle.wg_tool.specs.Ending.{done_by};
ghost use Rattle.wg_tool.specs.Report.{IsReportOfRun, complete_report};
ghost use Rattle.wg_tool.specs.Running.{IsFormShape, IsRunnable, StandsShort, default_limits};
ghost use Rattle.wg_tool.specs.Sending.{sender};

use crate::bodies::Senders;
use crate::steps::run_all;
use std::alloc::{AllocError, Global};
use wg_buffers::Buffers;
use wg_engine::{Core, Report};
use wg_kept::Keep;
use wg_machine::{
    Entries, Limits, Shape, chains_are_short, each_once, slots_hold_bytes, something_has_room,
};
use wg_plan::{Plan, PlanFault, good_shapes_are_small, plan};
use wg_standing::{beginnings_stand, idle_is_complete};
use wg_words::TryCopy;
use wg_words::limits::{DEFAULT_LAUNCHES, DEFAULT_TURNS};

/// The plan of one launch out at a time.
fn one_wide(alloc: Global, shape: &Shape) -> Result<Plan, AllocError>
    requires { IsFormShape shape.now }
    ensures width { IfOk result (λ plan. plan.width ≡ 1) }
    ensures count { IfOk result (λ plan. length plan.slots ≡ length shape.now.units) }
    ensures slots { IfOk result (λ plan. (v : ℕ) → v < length plan.slots → slice_index plan.slots v ≡ plan.width * most shape.now v) }
    ensures bytes { IfOk result (λ plan. plan.bytes ≡ plan_bytes shape.now plan.width) }
{
    good_shapes_are_small();
    match plan(alloc, shape, None, 1) {
        Ok(plan) => Ok(plan),
        Err(PlanFault::Memory) => Err(AllocError),
        Err(PlanFault::TooSmall { need: _, given: _ }) => unreachable!(),
        Err(PlanFault::TooLarge { need: _ }) => unreachable!(),
    }
}

/// A core at the start of a script, with room for one launch out at a time.
fn begin(alloc: Global, senders: &Senders, entries: Entries) -> Result<Core<Keep>, AllocError>
    requires { IsRunnable senders.now.shape entries }
    ensures { IfOk result (λ core. core ≡ core_begun senders.now.shape 1 default_limits entries []) }
{
    let shape = senders.shape.copy(alloc)?;
    let plan = one_wide(alloc, &shape)?;
    let limits = Limits {
        turns: DEFAULT_TURNS,
        launches: DEFAULT_LAUNCHES,
    };
    let keep = Keep::new(alloc, shape, plan, entries, limits)?;
    let buffers = Buffers::new(alloc, &[], &[])?;
    Ok(Core::begin(alloc, keep, buffers))
}

/// Runs a script to its end, and gives what the run came to.
pub fn run_script(alloc: Global, senders: &Senders, entries: Entries) -> Result<Report, AllocError>
    requires { IsRunnable senders.now.shape entries }
    ensures report { IfOk result (λ r. IsReportOfRun senders.now.shape (sender senders.now.targets senders.now.adds) entries (complete_report senders.now.shape r.journal.entries (done_by r))) }
    ensures outs { IfOk result (λ r. Each (λ (e : EntryOf). e.first_out + e.outs ≤ 2 ^ 64) r.journal.entries) }
{
    each_once();
    slots_hold_bytes();
    something_has_room();
    chains_are_short();
    beginnings_stand();
    idle_is_complete();
    let mut core = begin(alloc, senders, entries)?;
    run_all(senders, &mut core)?;
    Ok(core.finish())
}
