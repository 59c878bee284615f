ghost use Rattle.std.specs.Prelude.{◌≡◌, IfOk};
ghost use Rattle.wg_typing.specs.Layers as l;

use crate::notes::Maybe;
use sqlite_items::Boxed;
use std::alloc::{AllocError, Global};
use wg_conversions::{fits, same_type};
use wg_typed::{TypeTree, TypedExpr, TypedKind};
use wg_typing::{Part, Standing, TypedPart, Value};
use wg_words::Place;

pub type Valued = Result<Option<Value>, AllocError>;

/// Lets a value go, in one step of a proof however large its type is.
pub fn discard<T: Drop>(_value: T) {}

/// A part as one that has a type.
pub fn typed_part(part: Part) -> Option<TypedPart>
    ensures { result ≡ l.typed_part part }
{
    let Part { place, value, .. } = part;
    match value {
        Some(Value::Typed { of, standing, tree }) => Some(TypedPart {
            place,
            of,
            standing,
            tree,
        }),
        other => {
            discard(other);
            None
        }
    }
}

/// A value that can be assigned or not.
pub fn valued(
    alloc: Global,
    standing: Standing,
    place: Place,
    of: TypeTree,
    kind: TypedKind,
) -> Valued
    ensures { IfOk result (λ r. r ≡ l.valued standing place of kind) }
{
    let tree = Boxed::new(alloc, TypedExpr { kind, of, place })?;
    Ok(Some(Value::Typed { of, standing, tree }))
}

/// A value that cannot be assigned.
pub fn fixed(alloc: Global, place: Place, of: TypeTree, kind: TypedKind) -> Valued
    ensures { IfOk result (λ r. r ≡ l.fixed place of kind) }
{
    valued(alloc, Standing::Fixed, place, of, kind)
}

/// The part in the type: a conversion is written where the types differ.
pub fn convert(alloc: Global, goal: TypeTree, t: TypedPart) -> Maybe<Boxed<TypedExpr>>
    ensures { IfOk result (λ r. r ≡ l.convert goal t) }
{
    if !fits(t.of, goal) {
        return Ok(None);
    }
    if same_type(t.of, goal) {
        return Ok(Some(t.tree));
    }
    let kind = TypedKind::Convert { operand: t.tree };
    let place = t.place;
    let tree = TypedExpr {
        kind,
        of: goal,
        place,
    };
    Ok(Some(Boxed::new(alloc, tree)?))
}
