ghost use Rattle.std.specs.Prelude.{◌≡◌, IfOk};
ghost use Rattle.wg_typing.specs.TypingForms as t;
ghost use Rattle.wg_typing.specs.declared.part.Along.TheVariants as along_of;

use sqlite_items::{Boxed, Items};
use std::alloc::{AllocError, Global};
use wg_typed::{Access, TypeTree, TypedExpr, TypedKind};
use wg_typing::{Along, Part, Reached, Standing, Value};
use wg_words::Place;

/// What a value is before the forms after it.
pub fn begin(alloc: Global, value: Value) -> Along
    ensures { result ≡ t.begin value }
{
    match value {
        Value::Typed { of, standing, tree } => {
            let reached = Reached {
                of,
                standing,
                base: tree,
                accesses: Items::new(alloc),
            };
            Along::Typed { reached }
        }
        other => Along::Other { value: other },
    }
}

/// What stands before the first form.
pub fn begun(alloc: Global, first: Part) -> Option<Along>
    ensures { result ≡ t.begun first }
{
    let Part { value, .. } = first;
    match value {
        Some(value) => Some(begin(alloc, value)),
        None => None,
    }
}

fn with_accesses(
    alloc: Global,
    place: Place,
    of: TypeTree,
    base: Boxed<TypedExpr>,
    accesses: Items<Access>,
) -> Result<Boxed<TypedExpr>, AllocError>
    ensures { IfOk result (λ e. e ≡ t.with_accesses place of base accesses) }
{
    if accesses.is_empty() {
        return Ok(base);
    }
    let kind = TypedKind::Access {
        base,
        forms: accesses,
    };
    Boxed::new(alloc, TypedExpr { kind, of, place })
}

fn reached(alloc: Global, place: Place, r: Reached) -> Result<Value, AllocError>
    ensures { IfOk result (λ v. v ≡ t.finish place (along_of.Typed r)) }
{
    let Reached {
        of,
        standing,
        base,
        accesses,
    } = r;
    let tree = with_accesses(alloc, place, of, base, accesses)?;
    Ok(Value::Typed { of, standing, tree })
}

/// What stands after the last form, at the first token of all.
pub fn finish(alloc: Global, place: Place, along: Along) -> Result<Value, AllocError>
    ensures { IfOk result (λ v. v ≡ t.finish place along) }
{
    match along {
        Along::Typed { reached: r } => reached(alloc, place, r),
        Along::Other { value } => Ok(value),
    }
}
