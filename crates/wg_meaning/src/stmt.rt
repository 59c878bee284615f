ghost use Rattle.std.specs.Prelude.{◌≡◌, ◌≤◌, ◌<◌, OnOk, option_map};
ghost use Rattle.wg_state.specs.Turns.{Done, pure};
ghost use Rattle.wg_semantics.specs.ExprMeaning.{seen, word_of};
ghost use Rattle.wg_semantics.specs.StepMeaning.{started};
ghost use Rattle.wg_semantics.specs.StmtMeaning.{loop as looped, on, test_of, of_group, is_group_handle, asks, completes, maybe_else, returned, does, body_does};
ghost use Rattle.wg_meaning.specs.Flows.{begun, entered, for_looped, goes_on as flow_goes_on, loop_left, next_result};
ghost use Rattle.wg_values.specs.Pieces.{setting_of};
ghost use Rattle.wg_evaluation.specs.Says.{Runs, within};

use crate::step::{declare_all, optional_word, start as begin, step, steps};
use sqlite_items::{Boxed, Items};
use wg_evaluation::{Calls, Run, value, word};
use wg_machine::Halt;
use wg_semantics::Flow;
use wg_state::Request;
use wg_typed::{TypedExpr, TypedStart, TypedStep, TypedStmt};
use wg_values::{Setting, ask, close, grant};
use wg_words::{Word, Words};

fn goes_on(end: &Flow) -> bool
    ensures { result ≡ flow_goes_on end.now }
{
    match end {
        Flow::Next => true,
        Flow::Broke | Flow::Continued | Flow::Returned { .. } => false,
    }
}

/// How a loop ends after its body, if it does.
fn left(end: Flow) -> Option<Flow>
    ensures { result ≡ loop_left end }
{
    match end {
        Flow::Next | Flow::Continued => None,
        Flow::Broke => Some(Flow::Next),
        Flow::Returned { words } => Some(Flow::Returned { words }),
    }
}

fn next(done: Result<(), Halt>) -> Result<Flow, Halt>
    ensures { result ≡ next_result done }
{
    done?;
    Ok(Flow::Next)
}

/// A request or an increment: the element first, then the number.
fn request<C: Calls>(
    setting: &Setting<'_>,
    calls: &C,
    handle: Option<u32>,
    output: u32,
    element: &Option<TypedExpr>,
    amount: &TypedExpr,
    run: &mut Run,
) -> Result<(), Halt>
    ensures says { Runs (within (C.reach calls.now) setting.now asks handle output element.now amount.now) run.old result run.new }
    ensures turns { run.new.turns ≤ run.old.turns }
{
    let at = optional_word(setting, calls, element, run)?;
    let count = word(setting, calls, amount, run)?;
    let request = Request {
        handle,
        lane: setting.lane,
        output,
        element: at,
        amount: count,
    };
    ask(
        setting.alloc,
        setting.outputs,
        request,
        &mut run.state.world,
    )?;
    Ok(())
}

/// A group request or a group increment is lane 0's alone.
fn group_request<C: Calls>(
    setting: &Setting<'_>,
    calls: &C,
    handle: Option<u32>,
    group: bool,
    output: u32,
    element: &Option<TypedExpr>,
    amount: &TypedExpr,
    run: &mut Run,
) -> Result<Flow, Halt>
    ensures says { Runs (on (of_group (setting_of setting.now) group (within (C.reach calls.now) setting.now asks handle output element.now amount.now))) run.old result run.new }
    ensures turns { run.new.turns ≤ run.old.turns }
{
    if group && setting.lane != 0 {
        return Ok(Flow::Next);
    }
    next(request(setting, calls, handle, output, element, amount, run))
}

fn is_group(setting: &Setting<'_>, handle: u32) -> bool
    ensures { result ≡ is_group_handle (setting_of setting.now) handle }
{
    match setting.handles.get(handle as usize) {
        None => false,
        Some(h) => h.group,
    }
}

/// `OutputComplete`; of a group handle it is lane 0's alone.
fn complete(setting: &Setting<'_>, handle: u32, run: &mut Run) -> Flow
    ensures says { on (of_group (setting_of setting.now) (is_group_handle (setting_of setting.now) handle) (completes (setting_of setting.now) handle)) run.old.state run.old.turns ≡ Done result run.new.state run.new.turns }
    ensures turns { run.new.turns ≡ run.old.turns }
{
    if is_group(setting, handle) && setting.lane != 0 {
        return Flow::Next;
    }
    let grant = grant(setting, handle, &run.state);
    close(setting.alloc, grant, &mut run.state.world);
    Flow::Next
}

fn give_back<C: Calls>(
    setting: &Setting<'_>,
    calls: &C,
    e: &Option<TypedExpr>,
    run: &mut Run,
) -> Result<Flow, Halt>
    ensures says { Runs (within (C.reach calls.now) setting.now returned e.now) run.old result run.new }
    ensures turns { run.new.turns ≤ run.old.turns }
{
    match e {
        None => Ok(Flow::Returned {
            words: Words::new(setting.alloc),
        }),
        Some(e) => {
            let words = value(setting, calls, e, run)?;
            Ok(Flow::Returned { words })
        }
    }
}

/// The test of a `for`; without one it goes on.
fn test<C: Calls>(
    setting: &Setting<'_>,
    calls: &C,
    e: &Option<TypedExpr>,
    run: &mut Run,
) -> Result<Word, Halt>
    ensures says { Runs (within (C.reach calls.now) setting.now test_of e.now) run.old result run.new }
    ensures turns { run.new.turns ≤ run.old.turns }
{
    match e {
        None => Ok(1),
        Some(e) => word(setting, calls, e, run),
    }
}

/// Runs statements until one leaves them.
#[cycle(stmt)]
pub fn block<C: Calls>(
    setting: &Setting<'_>,
    calls: &C,
    body: &[TypedStmt],
    run: &mut Run,
) -> Result<Flow, Halt>
    ensures says { Runs (within (C.reach calls.now) setting.now body_does body.now) run.old result run.new }
    ensures turns { run.new.turns ≤ run.old.turns }
{
    for s in body {
        let end = stmt(setting, calls, s, run)?;
        if !goes_on(&end) {
            return Ok(end);
        }
    }
    Ok(Flow::Next)
}

/// Enters a loop's body, which takes a turn.
#[cycle(stmt)]
fn enter<C: Calls>(
    setting: &Setting<'_>,
    calls: &C,
    body: &Boxed<TypedStmt>,
    run: &mut Run,
) -> Result<Flow, Halt>
    ensures says { Runs (entered (within (C.reach calls.now) setting.now does body.now)) run.old result run.new }
    ensures turns { run.new.turns ≤ run.old.turns }
    ensures takes { OnOk result (run.new.turns < run.old.turns) }
{
    if run.turns == 0 {
        return Err(Halt::Turns);
    }
    run.turns -= 1;
    stmt(setting, calls, body.get(), run)
}

#[cycle(stmt)]
fn while_loop<C: Calls>(
    setting: &Setting<'_>,
    calls: &C,
    body: &Boxed<TypedStmt>,
    e: &TypedExpr,
    run: &mut Run,
) -> Result<Flow, Halt>
    ensures says { Runs (looped (word_of (setting_of setting.now) (within (C.reach calls.now) setting.now seen e.now)) (within (C.reach calls.now) setting.now does body.now) (pure tt)) run.old result run.new }
    ensures turns { run.new.turns ≤ run.old.turns }
{
    'turns: loop {
        let go = word(setting, calls, e, run)?;
        if go == 0 {
            return Ok(Flow::Next);
        }
        let end = enter(setting, calls, body, run)?;
        match left(end) {
            Some(end) => return Ok(end),
            None => (),
        }
    }
}

#[cycle(stmt)]
fn for_loop<C: Calls>(
    setting: &Setting<'_>,
    calls: &C,
    body: &Boxed<TypedStmt>,
    e: &Option<TypedExpr>,
    list: &Items<TypedStep>,
    run: &mut Run,
) -> Result<Flow, Halt>
    ensures says { Runs (for_looped (C.reach calls.now) setting.now e.now body.now list.now) run.old result run.new }
    ensures turns { run.new.turns ≤ run.old.turns }
{
    'turns: loop {
        let go = test(setting, calls, e, run)?;
        if go == 0 {
            return Ok(Flow::Next);
        }
        let end = enter(setting, calls, body, run)?;
        match left(end) {
            Some(end) => return Ok(end),
            None => (),
        }
        steps(setting, calls, list, run)?;
    }
}

#[cycle(stmt)]
fn other_branch<C: Calls>(
    setting: &Setting<'_>,
    calls: &C,
    other: &Option<Boxed<TypedStmt>>,
    run: &mut Run,
) -> Result<Flow, Halt>
    ensures says { Runs (maybe_else (option_map (within (C.reach calls.now) setting.now does) other.now)) run.old result run.new }
    ensures turns { run.new.turns ≤ run.old.turns }
{
    match other {
        Some(s) => stmt(setting, calls, s.get(), run),
        None => Ok(Flow::Next),
    }
}

/// A `for`: what it begins with, then its loop.
#[cycle(stmt)]
fn for_statement<C: Calls>(
    setting: &Setting<'_>,
    calls: &C,
    start: &Option<TypedStart>,
    test: &Option<TypedExpr>,
    steps: &Items<TypedStep>,
    body: &Boxed<TypedStmt>,
    run: &mut Run,
) -> Result<Flow, Halt>
    ensures says { Runs (begun (within (C.reach calls.now) setting.now started start.now) (for_looped (C.reach calls.now) setting.now test.now body.now steps.now)) run.old result run.new }
    ensures turns { run.new.turns ≤ run.old.turns }
{
    begin(setting, calls, start, run)?;
    for_loop(setting, calls, body, test, steps, run)
}

/// Runs one statement.
#[cycle(stmt)]
pub fn stmt<C: Calls>(
    setting: &Setting<'_>,
    calls: &C,
    s: &TypedStmt,
    run: &mut Run,
) -> Result<Flow, Halt>
    ensures says { Runs (within (C.reach calls.now) setting.now does s.now) run.old result run.new }
    ensures turns { run.new.turns ≤ run.old.turns }
{
    match s {
        TypedStmt::Block { body } => block(setting, calls, body.as_slice(), run),
        TypedStmt::Empty | TypedStmt::Barrier { .. } => Ok(Flow::Next),
        TypedStmt::Declare { declared } => next(declare_all(setting, calls, declared, run)),
        TypedStmt::Request {
            handle,
            group,
            output,
            element,
            amount,
        } => group_request(
            setting,
            calls,
            Some(*handle),
            *group,
            *output,
            element,
            amount,
            run,
        ),
        TypedStmt::Increment {
            group,
            output,
            element,
            amount,
        } => group_request(setting, calls, None, *group, *output, element, amount, run),
        TypedStmt::Complete { handle } => Ok(complete(setting, *handle, run)),
        TypedStmt::Step { step: part } => next(step(setting, calls, part, run)),
        TypedStmt::Break => Ok(Flow::Broke),
        TypedStmt::Continue => Ok(Flow::Continued),
        TypedStmt::Return { value } => give_back(setting, calls, value, run),
        TypedStmt::If {
            test,
            then,
            other,
            ..
        } => {
            let c = word(setting, calls, test, run)?;
            if c != 0 {
                stmt(setting, calls, then.get(), run)
            } else {
                other_branch(setting, calls, other, run)
            }
        }
        TypedStmt::While { test, body, .. } => while_loop(setting, calls, body, test, run),
        TypedStmt::For {
            start,
            test,
            steps,
            body,
            ..
        } => for_statement(setting, calls, start, test, steps, body, run),
    }
}
