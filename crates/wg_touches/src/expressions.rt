//! What expressions do to the shared buffers, by a test of touches: all but reads and exchanges pass, and stores or not.
ghost use Rattle.std.specs.Prelude.{◌≡◌, List, map, slice_get};
ghost use Rattle.std.specs.Option.{option_copied};
ghost use Rattle.wg_additive.specs.ExprTouches as e;
ghost use Rattle.wg_additive.specs.Touch.{Touch, joined};
ghost use Rattle.wg_touches.specs.Passing as p;
ghost use Rattle.wg_typed.specs.Directions.{direction_of as written_direction};

use sqlite_items::{Boxed, Items};
use wg_tree::{Directed, Direction};
use wg_typed::{Access, TypedExpr, TypedFunction, TypedKind, TypedLink, TypedParameter};

/// Whether what an expression does passes: where its value is taken, and where its place is found; and whether that is in a
/// buffer.
#[derive(Clone, Copy, Debug, PartialEq, Eq)]
pub struct Passed {
    pub value: bool,
    pub place: bool,
    pub in_buffer: bool,
}

/// An expression that is no place in a buffer.
fn outside(value: bool) -> Passed
    ensures { result ≡ p.outside_passed value }
{
    Passed {
        value,
        place: value,
        in_buffer: false,
    }
}

fn direction_of(written: Option<Directed>) -> Direction
    ensures { result ≡ written_direction written }
{
    match written {
        Some(directed) => directed.direction,
        None => Direction::In,
    }
}

/// An argument by how it is passed.
#[tactic(auto, using(crate::proofs::Passes::both_pass))]
fn passed_so(stores: bool, direction: Direction, seen: Passed) -> bool
    ensures { (t : e.Touched) → seen ≡ p.passed stores t → result ≡ p.passes stores (e.passed_by direction t) }
{
    match direction {
        Direction::In => seen.value,
        Direction::Out => seen.place & (!seen.in_buffer | stores),
        Direction::InOut => seen.place & !seen.in_buffer,
    }
}

/// An argument by its parameter; one without a parameter is taken for its value.
fn argument_passes(stores: bool, parameter: Option<&TypedParameter>, seen: Passed) -> bool
    ensures { (t : e.Touched) → seen ≡ p.passed stores t → result ≡ p.passes stores (p.argument_touches (option_copied parameter.entry) t) }
{
    match parameter {
        Some(parameter) => passed_so(stores, direction_of(parameter.direction), seen),
        None => seen.value,
    }
}

/// A parameter of a function, by their numbers.
fn parameter_at(
    functions: &[TypedFunction],
    function: u32,
    number: usize,
) -> Option<&TypedParameter>
    ensures { option_copied result ≡ slice_get (e.parameters_in (slice_get functions.now function)) number }
{
    match functions.get(function as usize) {
        Some(found) => found.parameters.get(number),
        None => None,
    }
}

/// What an expression does.
#[cycle(seen)]
#[tactic(auto, using(crate::proofs::Passes::both_pass, crate::proofs::Passes::a_read_fails))]
pub fn seen(functions: &[TypedFunction], stores: bool, expr: &TypedExpr) -> Passed
    ensures { result ≡ p.passed stores (e.touched functions.now expr.now) }
{
    match &expr.kind {
        TypedKind::Literal { .. }
        | TypedKind::Variable { .. }
        | TypedKind::Shared { .. }
        | TypedKind::Count
        | TypedKind::Finished
        | TypedKind::Levels
        | TypedKind::Zeros => outside(true),
        TypedKind::Element { index, .. } => Passed {
            value: false,
            place: seen(functions, stores, index.get()).value,
            in_buffer: true,
        },
        TypedKind::Load { .. } => outside(false),
        TypedKind::Input { index } | TypedKind::Handle { index, .. } => {
            outside(index_passes(functions, stores, index))
        }
        TypedKind::IsValid { element, .. } => outside(index_passes(functions, stores, element)),
        TypedKind::Access { base, forms } => {
            let whole = seen(functions, stores, base.get());
            let forms = forms_pass(functions, stores, forms.as_slice());
            Passed {
                value: whole.value & forms,
                place: whole.place & forms,
                in_buffer: whole.in_buffer,
            }
        }
        TypedKind::Prefix { operand, .. } | TypedKind::Convert { operand } => {
            outside(seen(functions, stores, operand.get()).value)
        }
        TypedKind::Chain { first, rest } => {
            let first = seen(functions, stores, first.get()).value;
            outside(first & links_pass(functions, stores, rest.as_slice()))
        }
        TypedKind::Choice { test, then, other } => {
            let test = seen(functions, stores, test.get()).value;
            let then = seen(functions, stores, then.get()).value;
            outside(test & (then & seen(functions, stores, other.get()).value))
        }
        TypedKind::Construct { parts } => {
            outside(values_pass(functions, stores, parts.as_slice()))
        }
        TypedKind::Call {
            function,
            arguments,
        } => outside(call_passes(functions, stores, *function, arguments)),
        TypedKind::Intrinsic { arguments, .. } => {
            outside(values_pass(functions, stores, arguments.as_slice()))
        }
    }
}

#[cycle(seen)]
fn index_passes(functions: &[TypedFunction], stores: bool, index: &Option<Boxed<TypedExpr>>) -> bool
    ensures { result ≡ p.passes stores (e.option_touches functions.now index.now) }
{
    match index {
        Some(index) => seen(functions, stores, index.get()).value,
        None => true,
    }
}

#[cycle(seen)]
#[tactic(auto, using(crate::proofs::Passes::both_pass))]
fn values_pass(functions: &[TypedFunction], stores: bool, values: &[TypedExpr]) -> bool
    ensures { result ≡ p.values_pass stores functions.now values.now }
{
    for value in values {
        if !seen(functions, stores, value).value {
            return false;
        }
    }
    true
}

#[cycle(seen)]
#[tactic(auto, using(crate::proofs::Passes::both_pass))]
fn links_pass(functions: &[TypedFunction], stores: bool, links: &[TypedLink]) -> bool
    ensures { result ≡ p.links_pass stores functions.now links.now }
{
    for link in links {
        if !seen(functions, stores, &link.operand).value {
            return false;
        }
    }
    true
}

#[cycle(seen)]
fn form_passes(functions: &[TypedFunction], stores: bool, form: &Access) -> bool
    ensures { result ≡ p.passes stores (p.form_touches functions.now form.now) }
{
    match form {
        Access::Index { index, .. } => seen(functions, stores, index).value,
        Access::Field { .. } | Access::Components { .. } => true,
    }
}

#[cycle(seen)]
#[tactic(auto, using(crate::proofs::Passes::both_pass))]
fn forms_pass(functions: &[TypedFunction], stores: bool, forms: &[Access]) -> bool
    ensures { result ≡ p.forms_pass stores functions.now forms.now }
{
    for form in forms {
        if !form_passes(functions, stores, form) {
            return false;
        }
    }
    true
}

/// The arguments of a call; what the called function does stands in its own body.
#[cycle(seen)]
pub fn call_passes(
    functions: &[TypedFunction],
    stores: bool,
    function: u32,
    arguments: &Items<TypedExpr>,
) -> bool
    ensures { result ≡ p.call_passes stores functions.now function arguments.now }
{
    for (number, argument) in arguments.as_slice().iter().enumerate() {
        let argument = seen(functions, stores, argument);
        if !argument_passes(stores, parameter_at(functions, function, number), argument) {
            return false;
        }
    }
    true
}

/// What an expression does whose value is taken.
pub fn value_passes(functions: &[TypedFunction], stores: bool, expr: &TypedExpr) -> bool
    ensures { result ≡ p.passes stores (e.value_touches functions.now expr.now) }
{
    seen(functions, stores, expr).value
}

/// The same, where there is one.
pub fn option_passes(functions: &[TypedFunction], stores: bool, expr: &Option<TypedExpr>) -> bool
    ensures { result ≡ p.passes stores (e.option_touches functions.now expr.now) }
{
    match expr {
        Some(expr) => value_passes(functions, stores, expr),
        None => true,
    }
}

/// A place at which something is done that passes or does not.
#[tactic(auto, using(crate::proofs::Passes::both_pass))]
pub fn place_passes(
    functions: &[TypedFunction],
    stores: bool,
    there: bool,
    expr: &TypedExpr,
) -> bool
    ensures { (touches : List Touch) → there ≡ p.passes stores touches → result ≡ p.passes stores (e.place_touches functions.now touches expr.now) }
{
    let seen = seen(functions, stores, expr);
    seen.place & (!seen.in_buffer | there)
}
