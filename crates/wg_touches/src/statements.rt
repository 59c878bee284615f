//! What statements do to the shared buffers, by a test of touches.
ghost use Rattle.std.specs.Prelude.{◌≡◌, is_some};
ghost use Rattle.wg_additive.specs.StmtTouches as s;
ghost use Rattle.wg_additive.specs.Touch.{Touch, form_touch};
ghost use Rattle.wg_touches.specs.Passing as p;

use crate::expressions::{call_passes, option_passes, place_passes, value_passes};
use wg_typed::{
    Destination, Interlocked, InterlockedForm, TypedDeclarator, TypedExpr, TypedFunction,
    TypedStart, TypedStep, TypedStmt,
};

/// An addition that does not give the old word passes, and no other interlocked form.
fn form_passes(stores: bool, form: InterlockedForm, gives_old: bool) -> bool
    ensures { result ≡ p.allows stores (form_touch form gives_old) }
{
    matches!(form, InterlockedForm::Add) & !gives_old
}

#[tactic(auto, using(crate::proofs::Passes::one_passes, crate::proofs::Passes::and_one))]
fn destination_passes(
    functions: &[TypedFunction],
    stores: bool,
    there: bool,
    destination: &Destination,
) -> bool
    ensures { (touch : Touch) → there ≡ p.allows stores touch → result ≡ p.passes stores (s.destination_touches functions.now touch destination.now) }
{
    match destination {
        Destination::Scalar { target } => place_passes(functions, stores, there, target),
        Destination::Raw { address, .. } => value_passes(functions, stores, address) & there,
    }
}

/// The place of an old word, where it is asked for.
#[tactic(auto, using(crate::proofs::Passes::one_passes))]
fn old_passes(functions: &[TypedFunction], stores: bool, old: &Option<TypedExpr>) -> bool
    ensures { result ≡ p.passes stores (s.old_touches functions.now old.now) }
{
    match old {
        Some(old) => place_passes(functions, stores, stores, old),
        None => true,
    }
}

#[tactic(auto, using(crate::proofs::Passes::both_pass))]
fn interlocked_passes(functions: &[TypedFunction], stores: bool, i: &Interlocked) -> bool
    ensures { result ≡ p.passes stores (s.interlocked_touches functions.now i.now) }
{
    let there = form_passes(stores, i.form, i.old.is_some());
    let destination = destination_passes(functions, stores, there, &i.destination);
    let compare = option_passes(functions, stores, &i.compare);
    let value = value_passes(functions, stores, &i.value);
    destination & (compare & (value & old_passes(functions, stores, &i.old)))
}

#[tactic(auto, using(crate::proofs::Passes::both_pass, crate::proofs::Passes::one_passes, crate::proofs::Passes::none_read))]
fn step_passes(functions: &[TypedFunction], stores: bool, step: &TypedStep) -> bool
    ensures { result ≡ p.passes stores (s.step_touches functions.now step.now) }
{
    match step {
        TypedStep::Evaluate { value } => value_passes(functions, stores, value),
        TypedStep::Call {
            function,
            arguments,
        } => call_passes(functions, stores, *function, arguments),
        TypedStep::Assign { target, value } => {
            let target = place_passes(functions, stores, stores, target);
            target & value_passes(functions, stores, value)
        }
        TypedStep::Update { target, value, .. } => {
            let target = place_passes(functions, stores, false, target);
            target & value_passes(functions, stores, value)
        }
        TypedStep::Change { target, .. } => place_passes(functions, stores, false, target),
        TypedStep::Store { address, value, .. } => {
            let address = value_passes(functions, stores, address);
            address & (value_passes(functions, stores, value) & stores)
        }
        TypedStep::Interlocked { interlocked } => {
            interlocked_passes(functions, stores, interlocked)
        }
    }
}

#[tactic(auto, using(crate::proofs::Passes::both_pass))]
fn steps_pass(functions: &[TypedFunction], stores: bool, steps: &[TypedStep]) -> bool
    ensures { result ≡ p.steps_pass stores functions.now steps.now }
{
    for step in steps {
        if !step_passes(functions, stores, step) {
            return false;
        }
    }
    true
}

#[tactic(auto, using(crate::proofs::Passes::both_pass))]
fn declared_pass(functions: &[TypedFunction], stores: bool, declared: &[TypedDeclarator]) -> bool
    ensures { result ≡ p.declared_pass stores functions.now declared.now }
{
    for declarator in declared {
        if !option_passes(functions, stores, &declarator.value) {
            return false;
        }
    }
    true
}

/// What a `for` begins with.
fn start_passes(functions: &[TypedFunction], stores: bool, start: &Option<TypedStart>) -> bool
    ensures { result ≡ p.passes stores (s.start_touches functions.now start.now) }
{
    match start {
        Some(TypedStart::Declare { declared }) => {
            declared_pass(functions, stores, declared.as_slice())
        }
        Some(TypedStart::Steps { steps }) => steps_pass(functions, stores, steps.as_slice()),
        None => true,
    }
}

#[cycle(stmt)]
#[tactic(auto, using(crate::proofs::Passes::both_pass))]
fn stmt_passes(functions: &[TypedFunction], stores: bool, stmt: &TypedStmt) -> bool
    ensures { result ≡ p.passes stores (s.stmt_touches functions.now stmt.now) }
{
    match stmt {
        TypedStmt::Block { body } => body_passes(functions, stores, body.as_slice()),
        TypedStmt::Empty
        | TypedStmt::Complete { .. }
        | TypedStmt::Barrier { .. }
        | TypedStmt::Break
        | TypedStmt::Continue => true,
        TypedStmt::Declare { declared } => declared_pass(functions, stores, declared.as_slice()),
        TypedStmt::Request {
            element,
            amount,
            ..
        }
        | TypedStmt::Increment {
            element,
            amount,
            ..
        } => {
            let element = option_passes(functions, stores, element);
            element & value_passes(functions, stores, amount)
        }
        TypedStmt::Step { step } => step_passes(functions, stores, step),
        TypedStmt::Return { value } => option_passes(functions, stores, value),
        TypedStmt::If {
            test,
            then,
            other,
            ..
        } => {
            let test = value_passes(functions, stores, test);
            let then = stmt_passes(functions, stores, then.get());
            let other = match other {
                Some(other) => stmt_passes(functions, stores, other.get()),
                None => true,
            };
            test & (then & other)
        }
        TypedStmt::While { test, body, .. } => {
            let test = value_passes(functions, stores, test);
            test & stmt_passes(functions, stores, body.get())
        }
        TypedStmt::For {
            start,
            test,
            steps,
            body,
            ..
        } => {
            let start = start_passes(functions, stores, start);
            let test = option_passes(functions, stores, test);
            let steps = steps_pass(functions, stores, steps.as_slice());
            start & (test & (steps & stmt_passes(functions, stores, body.get())))
        }
    }
}

/// What the body of a function does.
#[cycle(stmt)]
#[tactic(auto, using(crate::proofs::Passes::both_pass))]
pub fn body_passes(functions: &[TypedFunction], stores: bool, body: &[TypedStmt]) -> bool
    ensures { result ≡ p.body_passes stores functions.now body.now }
{
    for stmt in body {
        if !stmt_passes(functions, stores, stmt) {
            return false;
        }
    }
    true
}
