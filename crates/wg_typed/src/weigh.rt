ghost use Rattle.std.specs.Prelude.{◌≡◌, ◌+◌, ◌<◌, ◌≤◌, length, min};
ghost use Rattle.wg_words.specs.declared.limits.TheConstants.{MOST_CODE_WEIGHT};
ghost use Rattle.wg_typed.specs.Weight.{weight_of, weights_before, raised, total, expr_weight, exprs_weight, option_weight, links_weight, link_weight_of, forms_weight, form_weight, called_weight, destination_weight, interlocked_weight, step_weight, steps_weight, declared_weight, start_weight, stmt_weight, body_weight};

use crate::typed::{Typed, TypedFunction};
use crate::typed_expr::{Access, TypedExpr, TypedKind, TypedLink};
use crate::typed_stmt::{
    Destination, Interlocked, TypedDeclarator, TypedStart, TypedStep, TypedStmt,
};
use sqlite_items::{Boxed, Items};
use wg_words::limits::MOST_CODE_WEIGHT;

/// One more than the greatest weight that an entry function may have.
const ABOVE: u32 = MOST_CODE_WEIGHT + 1;

/// The weight of a function: how many statements and expressions its body has, with the weight of each function where it is
/// called (this project's own rule); 65,537 where it has more than 65,536.
pub fn weight(typed: &Typed, function: u32) -> u32
    requires { function < length typed.now.functions }
    ensures { result ≡ min (MOST_CODE_WEIGHT + 1) (weight_of typed.now.functions function) }
{
    let body = &typed.functions.as_slice()[function as usize].body;
    add_body(&typed.functions, function, body, 0)
}

/// A function is added where it is called only below the limit, so that no text takes long, however often its functions
/// call one another.
#[cycle(weight)]
fn add_called(functions: &Items<TypedFunction>, before: u32, function: u32, so_far: u32) -> u32
    ensures { result ≡ raised so_far (called_weight (weights_before functions.now before) function) }
{
    if so_far >= ABOVE || function >= before {
        return so_far.min(ABOVE);
    }
    match functions.get(function as usize) {
        Some(called) => add_body(functions, function, &called.body, so_far),
        None => so_far.min(ABOVE),
    }
}

#[cycle(weight)]
fn add_expr(functions: &Items<TypedFunction>, before: u32, expr: &TypedExpr, so_far: u32) -> u32
    ensures { result ≡ raised so_far (expr_weight (weights_before functions.now before) expr.now) }
{
    match &expr.kind {
        TypedKind::Literal { .. }
        | TypedKind::Variable { .. }
        | TypedKind::Shared { .. }
        | TypedKind::Count
        | TypedKind::Finished
        | TypedKind::Levels
        | TypedKind::Zeros => one_more(so_far),
        TypedKind::Element { index: inner, .. }
        | TypedKind::Load { address: inner, .. }
        | TypedKind::Prefix { operand: inner, .. }
        | TypedKind::Convert { operand: inner } => {
            add_expr(functions, before, inner.get(), one_more(so_far))
        }
        TypedKind::Input { index } | TypedKind::Handle { index, .. } => {
            add_boxed(functions, before, index, one_more(so_far))
        }
        TypedKind::IsValid { element, .. } => {
            add_boxed(functions, before, element, one_more(so_far))
        }
        TypedKind::Access { base, forms } => {
            let so_far = add_expr(functions, before, base.get(), so_far);
            add_forms(functions, before, forms, so_far)
        }
        TypedKind::Chain { first, rest } => {
            let so_far = add_expr(functions, before, first.get(), so_far);
            add_links(functions, before, rest, so_far)
        }
        TypedKind::Choice { test, then, other } => {
            let so_far = add_expr(functions, before, test.get(), one_more(so_far));
            let so_far = add_expr(functions, before, then.get(), so_far);
            add_expr(functions, before, other.get(), so_far)
        }
        TypedKind::Construct { parts } => add_exprs(functions, before, parts, one_more(so_far)),
        TypedKind::Call {
            function,
            arguments,
        } => {
            let so_far = add_exprs(functions, before, arguments, one_more(so_far));
            add_called(functions, before, *function, so_far)
        }
        TypedKind::Intrinsic { arguments, .. } => {
            add_exprs(functions, before, arguments, one_more(so_far))
        }
    }
}

fn one_more(so_far: u32) -> u32
    ensures { result ≡ raised so_far 1 }
{
    if so_far < ABOVE { so_far + 1 } else { ABOVE }
}

#[cycle(weight)]
fn add_boxed(
    functions: &Items<TypedFunction>,
    before: u32,
    value: &Option<Boxed<TypedExpr>>,
    so_far: u32,
) -> u32
    ensures { result ≡ raised so_far (option_weight (weights_before functions.now before) value.now) }
{
    match value {
        Some(value) => add_expr(functions, before, value.get(), so_far),
        None => so_far.min(ABOVE),
    }
}

#[cycle(weight)]
fn add_exprs(
    functions: &Items<TypedFunction>,
    before: u32,
    values: &Items<TypedExpr>,
    so_far: u32,
) -> u32
    ensures { result ≡ raised so_far (exprs_weight (weights_before functions.now before) values.now) }
{
    let mut so_far = so_far.min(ABOVE);
    for value in values.as_slice() {
        so_far = add_expr(functions, before, value, so_far);
    }
    so_far
}

#[cycle(weight)]
fn add_links(
    functions: &Items<TypedFunction>,
    before: u32,
    links: &Items<TypedLink>,
    so_far: u32,
) -> u32
    ensures { result ≡ raised so_far (links_weight (weights_before functions.now before) links.now) }
{
    let mut so_far = so_far.min(ABOVE);
    for link in links.as_slice() {
        so_far = add_link(functions, before, link, so_far);
    }
    so_far
}

#[cycle(weight)]
fn add_link(functions: &Items<TypedFunction>, before: u32, link: &TypedLink, so_far: u32) -> u32
    ensures { result ≡ raised so_far (link_weight_of (weights_before functions.now before) link.now) }
{
    let so_far = one_more(so_far);
    match link.before {
        Some(_) => add_expr(functions, before, &link.operand, one_more(so_far)),
        None => add_expr(functions, before, &link.operand, so_far),
    }
}

#[cycle(weight)]
fn add_forms(
    functions: &Items<TypedFunction>,
    before: u32,
    forms: &Items<Access>,
    so_far: u32,
) -> u32
    ensures { result ≡ raised so_far (forms_weight (weights_before functions.now before) forms.now) }
{
    let mut so_far = so_far.min(ABOVE);
    for form in forms.as_slice() {
        so_far = add_form(functions, before, form, so_far);
    }
    so_far
}

#[cycle(weight)]
fn add_form(functions: &Items<TypedFunction>, before: u32, form: &Access, so_far: u32) -> u32
    ensures { result ≡ raised so_far (form_weight (weights_before functions.now before) form.now) }
{
    match form {
        Access::Field { .. } | Access::Components { .. } => one_more(so_far),
        Access::Index { index, .. } => add_expr(functions, before, index, one_more(so_far)),
    }
}

#[cycle(weight)]
fn add_body(
    functions: &Items<TypedFunction>,
    before: u32,
    body: &Items<TypedStmt>,
    so_far: u32,
) -> u32
    ensures { result ≡ raised so_far (body_weight (weights_before functions.now before) body.now) }
{
    let mut so_far = so_far.min(ABOVE);
    for stmt in body.as_slice() {
        so_far = add_stmt(functions, before, stmt, so_far);
    }
    so_far
}

#[cycle(weight)]
fn add_stmt(functions: &Items<TypedFunction>, before: u32, stmt: &TypedStmt, so_far: u32) -> u32
    ensures { result ≡ raised so_far (stmt_weight (weights_before functions.now before) stmt.now) }
{
    match stmt {
        TypedStmt::Block { body } => add_body(functions, before, body, one_more(so_far)),
        TypedStmt::Empty
        | TypedStmt::Complete { .. }
        | TypedStmt::Barrier { .. }
        | TypedStmt::Break
        | TypedStmt::Continue => one_more(so_far),
        TypedStmt::Declare { declared } => {
            add_declared(functions, before, declared, one_more(so_far))
        }
        TypedStmt::Request {
            element,
            amount,
            ..
        }
        | TypedStmt::Increment {
            element,
            amount,
            ..
        } => {
            let so_far = add_option(functions, before, element, one_more(so_far));
            add_expr(functions, before, amount, so_far)
        }
        TypedStmt::Step { step } => add_step(functions, before, step, so_far),
        TypedStmt::Return { value } => add_option(functions, before, value, one_more(so_far)),
        TypedStmt::If {
            test,
            then,
            other,
            ..
        } => {
            let so_far = add_expr(functions, before, test, one_more(so_far));
            let so_far = add_stmt(functions, before, then.get(), so_far);
            match other {
                Some(other) => add_stmt(functions, before, other.get(), so_far),
                None => so_far,
            }
        }
        TypedStmt::While { test, body, .. } => {
            let so_far = add_expr(functions, before, test, one_more(so_far));
            add_stmt(functions, before, body.get(), so_far)
        }
        TypedStmt::For {
            start,
            test,
            steps,
            body,
            ..
        } => {
            let so_far = add_start(functions, before, start, one_more(so_far));
            let so_far = add_option(functions, before, test, so_far);
            let so_far = add_steps(functions, before, steps, so_far);
            add_stmt(functions, before, body.get(), so_far)
        }
    }
}

#[cycle(weight)]
fn add_option(
    functions: &Items<TypedFunction>,
    before: u32,
    value: &Option<TypedExpr>,
    so_far: u32,
) -> u32
    ensures { result ≡ raised so_far (option_weight (weights_before functions.now before) value.now) }
{
    match value {
        Some(value) => add_expr(functions, before, value, so_far),
        None => so_far.min(ABOVE),
    }
}

#[cycle(weight)]
fn add_declared(
    functions: &Items<TypedFunction>,
    before: u32,
    declared: &Items<TypedDeclarator>,
    so_far: u32,
) -> u32
    ensures { result ≡ raised so_far (declared_weight (weights_before functions.now before) declared.now) }
{
    let mut so_far = so_far.min(ABOVE);
    for declarator in declared.as_slice() {
        so_far = add_option(functions, before, &declarator.value, so_far);
    }
    so_far
}

#[cycle(weight)]
fn add_start(
    functions: &Items<TypedFunction>,
    before: u32,
    start: &Option<TypedStart>,
    so_far: u32,
) -> u32
    ensures { result ≡ raised so_far (start_weight (weights_before functions.now before) start.now) }
{
    match start {
        Some(TypedStart::Declare { declared }) => {
            add_declared(functions, before, declared, one_more(so_far))
        }
        Some(TypedStart::Steps { steps }) => add_steps(functions, before, steps, so_far),
        None => so_far.min(ABOVE),
    }
}

#[cycle(weight)]
fn add_steps(
    functions: &Items<TypedFunction>,
    before: u32,
    steps: &Items<TypedStep>,
    so_far: u32,
) -> u32
    ensures { result ≡ raised so_far (steps_weight (weights_before functions.now before) steps.now) }
{
    let mut so_far = so_far.min(ABOVE);
    for step in steps.as_slice() {
        so_far = add_step(functions, before, step, so_far);
    }
    so_far
}

#[cycle(weight)]
fn add_step(functions: &Items<TypedFunction>, before: u32, step: &TypedStep, so_far: u32) -> u32
    ensures { result ≡ raised so_far (step_weight (weights_before functions.now before) step.now) }
{
    match step {
        TypedStep::Evaluate { value } => add_expr(functions, before, value, one_more(so_far)),
        TypedStep::Call {
            function,
            arguments,
        } => {
            let so_far = add_exprs(functions, before, arguments, one_more(so_far));
            add_called(functions, before, *function, so_far)
        }
        TypedStep::Assign { target, value } | TypedStep::Update { target, value, .. } => {
            let so_far = add_expr(functions, before, target, one_more(so_far));
            add_expr(functions, before, value, so_far)
        }
        TypedStep::Change { target, .. } => {
            add_expr(functions, before, target, one_more(so_far))
        }
        TypedStep::Store { address, value, .. } => {
            let so_far = add_expr(functions, before, address, one_more(so_far));
            add_expr(functions, before, value, so_far)
        }
        TypedStep::Interlocked { interlocked } => {
            add_interlocked(functions, before, interlocked, one_more(so_far))
        }
    }
}

#[cycle(weight)]
fn add_interlocked(
    functions: &Items<TypedFunction>,
    before: u32,
    interlocked: &Interlocked,
    so_far: u32,
) -> u32
    ensures { result ≡ raised so_far (interlocked_weight (weights_before functions.now before) interlocked.now) }
{
    let so_far = match &interlocked.destination {
        Destination::Scalar { target } => add_expr(functions, before, target, so_far),
        Destination::Raw { address, .. } => add_expr(functions, before, address, so_far),
    };
    let so_far = add_option(functions, before, &interlocked.compare, so_far);
    let so_far = add_expr(functions, before, &interlocked.value, so_far);
    add_option(functions, before, &interlocked.old, so_far)
}
