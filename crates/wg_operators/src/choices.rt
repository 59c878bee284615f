ghost use Rattle.std.specs.Prelude.{◌≡◌, IfOk, OnOk};
ghost use Rattle.wg_typing.specs.Conversions.{numbers};
ghost use Rattle.wg_typing.specs.RulesMismatchExpr as m;
ghost use Rattle.wg_typing.specs.Site.{AtResults};
ghost use Rattle.wg_notes.specs.Notes.{Gives, noted_at};
ghost use Rattle.wg_operators.specs.Operators as o;

use sqlite_items::Boxed;
use std::alloc::Global;
use wg_conversions::{common_numbers, fits, is_number, numbers, truth_type, type_of};
use wg_notes::{Noted, Notes, Valued, convert, fixed};
use wg_typed::{TypeTree, TypedExpr, TypedKind};
use wg_typing::{Numbers, TypedPart};
use wg_words::Place;

/// The numbers of which two results of `?:` are.
fn choice_of(a: TypeTree, b: TypeTree) -> Option<Numbers>
    ensures { result ≡ m.choice_of (numbers a) (numbers b) }
{
    common_numbers(numbers(a)?, numbers(b)?)
}

/// Two results that do not fit together, else each that is no number.
fn results(notes: &mut Notes, whole: Place, a: &TypedPart, b: &TypedPart) -> Noted
    ensures { OnOk result (notes.new.list ≡ noted_at (AtResults whole a.now b.now) notes.old.list) }
{
    if is_number(a.of) & is_number(b.of) {
        return notes.fault_if(choice_of(a.of, b.of).is_none(), 303, whole);
    }
    notes.fault_if(!is_number(a.of), 303, a.place)?;
    notes.fault_if(!is_number(b.of), 303, b.place)
}

fn chosen(
    alloc: Global,
    place: Place,
    test: Option<Boxed<TypedExpr>>,
    a: TypedPart,
    b: TypedPart,
) -> Valued
    ensures { IfOk result (λ r. r ≡ o.chosen place test a b) }
{
    let test = given!(test);
    let of = type_of(given!(choice_of(a.of, b.of)));
    let then = given!(convert(alloc, of, a)?);
    let other = given!(convert(alloc, of, b)?);
    let kind = TypedKind::Choice { test, then, other };
    fixed(alloc, place, of, kind)
}

/// `?:`, at the first token of its condition.
pub fn choice(
    notes: &mut Notes,
    place: Place,
    test: Option<TypedPart>,
    first: Option<TypedPart>,
    second: Option<TypedPart>,
) -> Valued
    ensures { Gives (o.choice_from place test first second) (o.choice_sites place test first second) result notes.old.list notes.new.list }
{
    let t = given!(test);
    let a = given!(first);
    let b = given!(second);
    notes.fault_if(!fits(t.of, truth_type()), 303, t.place)?;
    results(notes, place, &a, &b)?;
    let condition = convert(notes.alloc, truth_type(), t)?;
    chosen(notes.alloc, place, condition, a, b)
}
