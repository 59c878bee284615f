ghost use Rattle.wg_typing.specs.PartSites.{site_if};
ghost use Rattle.wg_typing.specs.Site.{AtNumber, AtGoal};
ghost use Rattle.wg_notes.specs.Notes.{Gives};
ghost use Rattle.wg_operators.specs.Operators as o;

use wg_conversions::{fits, numbers, prefix_type, type_of};
use wg_notes::{Notes, Valued, convert, fixed};
use wg_tree::PrefixOperator;
use wg_typed::{TypeTree, TypedKind};
use wg_typing::TypedPart;
use wg_words::Place;

/// A prefix operator on its operand, at the operator.
pub fn prefix(
    notes: &mut Notes,
    place: Place,
    operator: PrefixOperator,
    part: Option<TypedPart>,
) -> Valued
    ensures { Gives (o.prefix_from place operator part) (site_if AtNumber part) result notes.old.list notes.new.list }
{
    let t = given!(part);
    let Some(n) = numbers(t.of) else {
        notes.fault(303, t.place)?;
        return Ok(None);
    };
    let of = type_of(prefix_type(operator, n));
    let operand = given!(convert(notes.alloc, of, t)?);
    let kind = TypedKind::Prefix { operator, operand };
    fixed(notes.alloc, place, of, kind)
}

/// A cast of its operand, at its first token. It always stands in the typed form.
pub fn cast(notes: &mut Notes, place: Place, goal: TypeTree, part: Option<TypedPart>) -> Valued
    ensures { Gives (o.cast_from place goal part) (site_if (AtGoal goal) part) result notes.old.list notes.new.list }
{
    let t = given!(part);
    if !fits(t.of, goal) {
        notes.fault(303, t.place)?;
        return Ok(None);
    }
    let kind = TypedKind::Convert { operand: t.tree };
    fixed(notes.alloc, place, goal, kind)
}
