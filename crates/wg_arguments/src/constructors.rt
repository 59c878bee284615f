ghost use Rattle.std.specs.Prelude.{◌≡◌, Some, IfOk, OnOk};
ghost use Rattle.wg_typing.specs.TypingConstructor as t;
ghost use Rattle.wg_typing.specs.TypingIntrinsic.{all_numbers};
ghost use Rattle.wg_typing.specs.Site.{AtComponent};
ghost use Rattle.wg_notes.specs.Notes.{Gives, noted};
ghost use Rattle.wg_arguments.specs.Arguments as a;

use crate::lists::{convert_all, numbers_all};
use std::alloc::{AllocError, Global};
use wg_conversions::{is_wide, numbers, type_of};
use wg_notes::{Noted, Notes, Valued, fixed};
use wg_tree::{Scalar, ValueType};
use wg_typed::{TypeTree, TypedKind};
use wg_typing::{Numbers, TypedPart};
use wg_words::{Items, Place};

fn components(size: Option<u32>) -> u32
    ensures { result ≡ t.components size }
{
    size.unwrap_or(1)
}

/// Whether a part of the type may be in what is made: a number, and no wide one in a vector.
fn makes(size: Option<u32>, of: TypeTree) -> bool
    ensures { result ≡ t.makes size of }
{
    match (size, numbers(of)) {
        (None, n) => n.is_some(),
        (Some(_), None) => false,
        (Some(_), Some(n)) => !is_wide(n.of),
    }
}

/// Whether they make so many components: what is left of these after each of them.
#[tactic(auto, using(crate::proofs::Counts::counts_on, crate::proofs::Counts::counts_over, crate::proofs::Counts::counts_done))]
fn counts(size: Option<u32>, ns: &[Numbers]) -> bool
    ensures { result ≡ a.counts size ns.now }
{
    let mut left = components(size);
    for n in ns {
        let next = components(n.size);
        if left < next {
            return false;
        }
        left -= next;
    }
    left == 0
}

fn all_make(size: Option<u32>, ts: &[TypedPart]) -> bool
    ensures { result ≡ t.all_make size ts.now }
{
    for t in ts {
        if !makes(size, t.of) {
            return false;
        }
    }
    true
}

/// Those that may not be in what is made.
fn unmade(notes: &mut Notes, size: Option<u32>, ts: &[TypedPart]) -> Noted
    ensures { OnOk result (notes.new.list ≡ noted (a.each_at (AtComponent size) ts.now) notes.old.list) }
{
    for t in ts {
        notes.fault_if(!makes(size, t.of), 303, t.place)?;
    }
    Ok(())
}

/// The numbers that are made of these, each of its size.
fn made_of(alloc: Global, of: Scalar, ns: &[Numbers]) -> Result<Items<Numbers>, AllocError>
    ensures { IfOk result (λ r. r ≡ a.made_of of ns.now) }
{
    let mut made = Items::new(alloc);
    for n in ns {
        made.push(Numbers { of, size: n.size })?;
    }
    Ok(made)
}

fn made(
    alloc: Global,
    place: Place,
    goal: Numbers,
    ts: Items<TypedPart>,
    ns: Items<Numbers>,
) -> Valued
    ensures { IfOk result (λ r. r ≡ a.made place goal ts (Some ns)) }
{
    if !(counts(goal.size, ns.as_slice()) & all_make(goal.size, ts.as_slice())) {
        return Ok(None);
    }
    let types = made_of(alloc, goal.of, ns.as_slice())?;
    let parts = given!(convert_all(alloc, types.as_slice(), ts)?);
    let parts = sqlite_items::Items::from_vec(parts.into_vec());
    fixed(alloc, place, type_of(goal), TypedKind::Construct { parts })
}

/// The scalar that is made, and how many of it.
fn goal_in(of: ValueType) -> Numbers
    ensures { result ≡ a.goal_in of }
{
    match of {
        ValueType::Scalar { of } => Numbers { of, size: None },
        ValueType::Vector { of, size } => Numbers {
            of,
            size: Some(size),
        },
    }
}

/// What is made of parts of these numbers, where all of them are of numbers.
fn made_from(
    notes: &mut Notes,
    place: Place,
    goal: Numbers,
    ts: Items<TypedPart>,
    ns: Option<Items<Numbers>>,
) -> Valued
    ensures { Gives (a.made place goal ts ns) (a.count_site place goal ns) result notes.old.list notes.new.list }
{
    let ns = given!(ns);
    notes.fault_if(!counts(goal.size, ns.as_slice()), 310, place)?;
    made(notes.alloc, place, goal, ts, ns)
}

/// What is made of parts that have types.
fn made_of_typed(notes: &mut Notes, place: Place, goal: Numbers, ts: Items<TypedPart>) -> Valued
    ensures { Gives (a.made place goal ts (all_numbers ts)) (a.made_sites place goal ts) result notes.old.list notes.new.list }
{
    unmade(notes, goal.size, ts.as_slice())?;
    let ns = numbers_all(notes.alloc, ts.as_slice())?;
    made_from(notes, place, goal, ts, ns)
}

/// A constructor of a scalar or a vector of parts, where all of them have types; at its first token.
pub fn constructed(
    notes: &mut Notes,
    place: Place,
    of: ValueType,
    ts: Option<Items<TypedPart>>,
) -> Valued
    ensures { Gives (a.constructed_from place (a.goal_in of) ts) (a.construct_sites place (a.goal_in of) ts) result notes.old.list notes.new.list }
{
    let ts = given!(ts);
    made_of_typed(notes, place, goal_in(of), ts)
}
