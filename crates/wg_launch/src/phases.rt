ghost use Rattle.std.specs.Prelude.{◌≡◌, [], ◌∷◌, option_map, true};
ghost use Rattle.wg_typed.specs.Uniform.{is_finished};
ghost use Rattle.wg_semantics.specs.LaunchMeaning.{Doing, entry_does, entry_doing, lanes_run, after_run, phases_run, body_runs, starts_last as starts_with_last, declares_last as declares_with_last, other_runs, part_of};
ghost use Rattle.wg_evaluation.specs.Says.{Says};
ghost use Rattle.wg_launch.specs.ByLanes.{goes_by_lanes};

use crate::lanes::{Entry, run_lanes, test_first};
use sqlite_items::Boxed;
use std::slice;
use wg_evaluation::Run;
use wg_machine::Halt;
use wg_semantics::Lane;
use wg_typed::{TypedDeclarator, TypedExpr, TypedKind, TypedStmt};
use wg_words::Items;

/// Whether an expression is `FinishedCrossGroupSharing()`.
fn is_last(e: &TypedExpr) -> bool
    ensures { result ≡ is_finished e.now.kind }
{
    matches!(e.kind, TypedKind::Finished)
}

fn starts_last(value: &Option<TypedExpr>) -> bool
    ensures { result ≡ starts_with_last value.now }
{
    match value {
        Some(e) => is_last(e),
        None => false,
    }
}

/// Whether one of the names is started with `FinishedCrossGroupSharing()`.
fn declares_last(declared: &[TypedDeclarator]) -> bool
    ensures { result ≡ declares_with_last declared.now }
{
    for d in declared {
        if starts_last(&d.value) {
            return true;
        }
    }
    false
}

/// Whether a statement is a phase of its own.
fn is_phase(s: &TypedStmt) -> bool
    ensures { (doing : Doing) → result ≡ (part_of doing s.now).phase }
{
    match s {
        TypedStmt::Request { .. } | TypedStmt::Increment { .. } | TypedStmt::Complete { .. } =>
            true,
        TypedStmt::Barrier { syncs } => *syncs,
        TypedStmt::Declare { declared } => declares_last(declared.as_slice()),
        TypedStmt::If { collective, .. } => *collective,
        TypedStmt::Block { .. }
        | TypedStmt::Empty
        | TypedStmt::Step { .. }
        | TypedStmt::Break
        | TypedStmt::Continue
        | TypedStmt::Return { .. }
        | TypedStmt::While { .. }
        | TypedStmt::For { .. } => false,
    }
}

/// A run of statements is a phase if there are any.
fn run_some(
    entry: &Entry<'_>,
    statements: &[TypedStmt],
    lanes: Items<Lane>,
    run: &mut Run,
) -> Result<Items<Lane>, Halt>
    ensures { Says (phases_run (after_run (entry_doing entry.now.text.now entry.now.function.now entry.now.unit.now entry.now.last) statements.now []) lanes run.old.state.world run.old.turns) result run.new.state.world run.new.turns }
{
    if statements.is_empty() {
        Ok(lanes)
    } else {
        run_lanes(entry, statements, lanes, run)
    }
}

/// Runs one statement lane by lane.
fn run_one(
    entry: &Entry<'_>,
    s: &TypedStmt,
    lanes: Items<Lane>,
    run: &mut Run,
) -> Result<Items<Lane>, Halt>
    ensures { Says (lanes_run (entry_does entry.now.text.now entry.now.function.now entry.now.unit.now entry.now.last (s.now ∷ [])) 0 lanes run.old.state.world run.old.turns) result run.new.state.world run.new.turns }
{
    run_lanes(entry, slice::from_ref(s), lanes, run)
}

/// Runs a statement that is no block and no collective `if`.
fn run_plain(
    entry: &Entry<'_>,
    s: &TypedStmt,
    lanes: Items<Lane>,
    run: &mut Run,
) -> Result<Items<Lane>, Halt>
    requires plain { goes_by_lanes s.now ≡ true }
    ensures { Says ((part_of (entry_doing entry.now.text.now entry.now.function.now entry.now.unit.now entry.now.last) s.now).runs lanes run.old.state.world run.old.turns) result run.new.state.world run.new.turns }
{
    run_one(entry, s, lanes, run)
}

/// Runs a statement on all lanes: a block in phases, a collective `if` by its test on lane 0, any other lane by lane.
#[cycle(phases)]
fn run_alone(
    entry: &Entry<'_>,
    s: &TypedStmt,
    lanes: Items<Lane>,
    run: &mut Run,
) -> Result<Items<Lane>, Halt>
    ensures { Says ((part_of (entry_doing entry.now.text.now entry.now.function.now entry.now.unit.now entry.now.last) s.now).runs lanes run.old.state.world run.old.turns) result run.new.state.world run.new.turns }
{
    match s {
        TypedStmt::Block { body } => run_block(entry, body.as_slice(), lanes, run),
        TypedStmt::If {
            collective,
            test,
            then,
            other,
            ..
        } => {
            if !*collective {
                return run_plain(entry, s, lanes, run);
            }
            let tested = test_first(entry, test, lanes, run)?;
            if tested.0 != 0 {
                run_alone(entry, then.get(), tested.1, run)
            } else {
                run_other(entry, other, tested.1, run)
            }
        }
        TypedStmt::Request { .. }
        | TypedStmt::Increment { .. }
        | TypedStmt::Complete { .. }
        | TypedStmt::Barrier { .. }
        | TypedStmt::Declare { .. }
        | TypedStmt::Empty
        | TypedStmt::Step { .. }
        | TypedStmt::Break
        | TypedStmt::Continue
        | TypedStmt::Return { .. }
        | TypedStmt::While { .. }
        | TypedStmt::For { .. } => run_plain(entry, s, lanes, run),
    }
}

#[cycle(phases)]
fn run_other(
    entry: &Entry<'_>,
    other: &Option<Boxed<TypedStmt>>,
    lanes: Items<Lane>,
    run: &mut Run,
) -> Result<Items<Lane>, Halt>
    ensures { Says (other_runs (option_map (part_of (entry_doing entry.now.text.now entry.now.function.now entry.now.unit.now entry.now.last)) other.now) lanes run.old.state.world run.old.turns) result run.new.state.world run.new.turns }
{
    match other {
        Some(s) => run_alone(entry, s.get(), lanes, run),
        None => Ok(lanes),
    }
}

/// Runs a block in phases, each on all lanes.
#[cycle(phases)]
pub fn run_block(
    entry: &Entry<'_>,
    statements: &[TypedStmt],
    lanes: Items<Lane>,
    run: &mut Run,
) -> Result<Items<Lane>, Halt>
    ensures { Says (body_runs (entry_doing entry.now.text.now entry.now.function.now entry.now.unit.now entry.now.last) statements.now lanes run.old.state.world run.old.turns) result run.new.state.world run.new.turns }
{
    let mut lanes = lanes;
    let mut from = 0;
    for at in 0..statements.len() {
        if is_phase(&statements[at]) {
            let before = match run_some(entry, &statements[from..at], lanes, run) {
                Ok(before) => before,
                Err(halt) => return Err(halt),
            };
            lanes = match run_alone(entry, &statements[at], before, run) {
                Ok(lanes) => lanes,
                Err(halt) => return Err(halt),
            };
            from = at + 1;
        }
    }
    run_some(entry, &statements[from..], lanes, run)
}
