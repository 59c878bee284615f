ghost use Rattle.std.specs.Prelude.{◌≡◌, true};
ghost use Rattle.wg_typed.specs.Uniform.{is_uniform as is_uniform_by, setting_in, spread_of, operand_spread, form_taken, taken, evenly};
ghost use Rattle.wg_uniform.specs.OneValue.{HasOneValue};
ghost use Rattle.wg_uniform.specs.Parts.{spread_in, has_uniform_index, are_uniform, have_uniform_operands, after_forms};

use crate::setting::Setting;
use sqlite_items::{Boxed, Items};
use wg_typed::{Access, TypedExpr, TypedFunction, TypedKind, TypedLink};

/// Whether an expression is uniform, and whether its fields are.
#[derive(Clone, Copy, Debug, PartialEq, Eq)]
pub struct Found {
    pub whole: bool,
    pub field: bool,
}

/// Whether an expression of the entry function has one value on all lanes of a launch that come to it in the same way. It
/// takes no memory, and time in the length of the expression.
pub fn is_uniform(entry: &TypedFunction, condition: &TypedExpr) -> bool
    ensures exact { result ≡ is_uniform_by (setting_in entry.now) condition.now }
    ensures one { result ≡ true → HasOneValue (setting_in entry.now) condition.now }
{
    is_uniform_in(&Setting::of(entry), condition)
}

/// The same by the marks of an entry function, as far as they are known.
pub fn is_uniform_in(setting: &Setting<'_>, condition: &TypedExpr) -> bool
    ensures exact { result ≡ is_uniform_by setting.now condition.now }
    ensures one { result ≡ true → HasOneValue setting.now condition.now }
{
    spread(setting, condition).whole
}

fn both(whole: bool) -> Found
    ensures { spread_in result ≡ evenly whole }
{
    Found {
        whole,
        field: whole,
    }
}

#[cycle(spread)]
fn spread(setting: &Setting<'_>, expr: &TypedExpr) -> Found
    ensures { spread_in result ≡ spread_of setting.now expr.now }
{
    match &expr.kind {
        TypedKind::Literal { .. } | TypedKind::Count | TypedKind::Levels | TypedKind::Zeros => {
            both(true)
        }
        TypedKind::Shared { .. }
        | TypedKind::Element { .. }
        | TypedKind::Load { .. }
        | TypedKind::Finished
        | TypedKind::Handle { .. }
        | TypedKind::Call { .. } => both(false),
        TypedKind::Variable { variable } => both(setting.marks(*variable)),
        TypedKind::Input { index } => Found {
            whole: false,
            field: setting.reads() && index_uniform(setting, index),
        },
        TypedKind::IsValid { element, .. } => both(index_uniform(setting, element)),
        TypedKind::Access { base, forms } => {
            let first = spread(setting, base.get());
            forms_after(setting, first, forms)
        }
        TypedKind::Prefix { operand, .. } | TypedKind::Convert { operand } => {
            both(spread(setting, operand.get()).whole)
        }
        TypedKind::Chain { first, rest } => {
            both(spread(setting, first.get()).whole && all_operands(setting, rest))
        }
        TypedKind::Choice { test, then, other } => both(
            spread(setting, test.get()).whole
                && spread(setting, then.get()).whole
                && spread(setting, other.get()).whole,
        ),
        TypedKind::Construct { parts } => both(all_values(setting, parts)),
        TypedKind::Intrinsic { arguments, .. } => both(all_values(setting, arguments)),
    }
}

#[cycle(spread)]
fn index_uniform(setting: &Setting<'_>, index: &Option<Boxed<TypedExpr>>) -> bool
    ensures { result ≡ has_uniform_index setting.now index.now }
{
    match index {
        Some(index) => spread(setting, index.get()).whole,
        None => true,
    }
}

#[cycle(spread)]
fn all_values(setting: &Setting<'_>, values: &Items<TypedExpr>) -> bool
    ensures { result ≡ are_uniform setting.now values.now }
{
    for value in values.as_slice() {
        if !spread(setting, value).whole {
            return false;
        }
    }
    true
}

#[cycle(spread)]
fn all_operands(setting: &Setting<'_>, links: &Items<TypedLink>) -> bool
    ensures { result ≡ have_uniform_operands setting.now links.now }
{
    for link in links.as_slice() {
        if !spread(setting, &link.operand).whole {
            return false;
        }
    }
    true
}

/// What a form takes of a value: a field is as the value's fields are, components as the whole is, and an element of an
/// array is not uniform.
fn form_after(setting: &Setting<'_>, value: Found, form: &Access) -> Found
    ensures { spread_in result ≡ evenly (taken (spread_in value) (form_taken setting.now form.now)) }
{
    match form {
        Access::Field { .. } => both(value.field),
        Access::Components { .. } => both(value.whole),
        Access::Index { .. } => both(false),
    }
}

fn forms_after(setting: &Setting<'_>, first: Found, forms: &Items<Access>) -> Found
    ensures { spread_in result ≡ after_forms setting.now (spread_in first) forms.now }
{
    let mut value = first;
    for form in forms.as_slice() {
        value = form_after(setting, value, form);
    }
    value
}
