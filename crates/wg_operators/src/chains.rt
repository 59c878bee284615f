ghost use Rattle.std.specs.Prelude.{◌≡◌, Some, IfOk, OnOk};
ghost use Rattle.wg_typing.specs.PartSites.{link_site};
ghost use Rattle.wg_typing.specs.Site.{AtLink};
ghost use Rattle.wg_typing.specs.TypingOperators as t;
ghost use Rattle.wg_notes.specs.Notes.{Gives, noted, noted_at};
ghost use Rattle.wg_operators.specs.Operators as o;

use sqlite_items::{Boxed, Items};
use std::alloc::{AllocError, Global};
use wg_conversions::{operation_on, same_type, suited, suits, type_of};
use wg_notes::{Maybe, Noted, Notes, Valued, convert, fixed};
use wg_tree::BinaryOperator;
use wg_typed::{TypeTree, TypedExpr, TypedKind, TypedLink};
use wg_typing::TypedPart;
use wg_words::Place;

/// The operators of a chain so far, and the type of what they give.
#[derive(Drop)]
pub struct Run {
    pub first: Boxed<TypedExpr>,
    pub links: Items<TypedLink>,
    pub of: TypeTree,
}

/// A chain so far: the type of what it gives, and its operators.
#[derive(Drop)]
pub struct Chained {
    pub of: Option<TypeTree>,
    pub run: Option<Run>,
}

/// A chain of its first operand.
pub fn begun(alloc: Global, part: Option<TypedPart>) -> Chained
    ensures { result ≡ o.begun part }
{
    match part {
        Some(t) => Chained {
            of: Some(t.of),
            run: Some(Run {
                first: t.tree,
                links: Items::new(alloc),
                of: t.of,
            }),
        },
        None => Chained {
            of: None,
            run: None,
        },
    }
}

/// The type to which what stands before is converted, if that is another one.
fn if_other(from: TypeTree, goal: TypeTree) -> Option<TypeTree>
    ensures { result ≡ t.if_other from goal }
{
    if same_type(from, goal) {
        None
    } else {
        Some(goal)
    }
}

/// The type of what stands with one more operator.
fn type_from(
    before: TypeTree,
    operator: BinaryOperator,
    part: &Option<TypedPart>,
) -> Option<TypeTree>
    ensures { result ≡ o.type_from before operator part.now }
{
    let t = part.as_ref()?;
    Some(type_of(suited(operator, before, t.of)?.result))
}

/// One more operator and its operand, in the types in which they are taken.
fn linked(alloc: Global, run: Run, operator: BinaryOperator, t: TypedPart) -> Maybe<Run>
    ensures { IfOk result (λ r. r ≡ o.run_after (Some run) operator (Some t)) }
{
    let o = given!(suited(operator, run.of, t.of));
    let operand = given!(convert(alloc, type_of(o.right), t)?);
    let link = TypedLink {
        operator,
        before: if_other(run.of, type_of(o.left)),
        operand: operand.into_inner(),
        of: type_of(o.result),
    };
    let Run {
        first,
        mut links,
        ..
    } = run;
    links.push(link)?;
    Ok(Some(Run {
        first,
        links,
        of: type_of(o.result),
    }))
}

fn run_after(
    alloc: Global,
    run: Option<Run>,
    operator: BinaryOperator,
    part: Option<TypedPart>,
) -> Maybe<Run>
    ensures { IfOk result (λ r. r ≡ o.run_after run operator part) }
{
    let run = given!(run);
    let t = given!(part);
    linked(alloc, run, operator, t)
}

/// Each operand that does not suit, else the whole where they do not fit together.
fn clash(
    notes: &mut Notes,
    whole: Place,
    before: TypeTree,
    operator: BinaryOperator,
    t: &TypedPart,
) -> Noted
    ensures { OnOk result (notes.new.list ≡ noted_at (AtLink whole before operator t.now) notes.old.list) }
{
    match (suits(operator, before), suits(operator, t.of)) {
        (true, true) => notes.fault_if(operation_on(operator, before, t.of).is_none(), 303, whole),
        (true, false) => notes.fault(303, t.place),
        (false, true) => notes.fault(303, whole),
        (false, false) => {
            notes.fault(303, whole)?;
            notes.fault(303, t.place)
        }
    }
}

/// What is noted of an operator between the type of what stands before it and its operand.
fn clash_if(
    notes: &mut Notes,
    whole: Place,
    before: Option<TypeTree>,
    operator: BinaryOperator,
    part: &Option<TypedPart>,
) -> Noted
    ensures { OnOk result (notes.new.list ≡ noted (link_site whole before operator part.now) notes.old.list) }
{
    match (before, part) {
        (Some(before), Some(t)) => clash(notes, whole, before, operator, t),
        _ => Ok(()),
    }
}

/// One more operator of a chain, and its operand; the place is that of the first token of all.
pub fn link(
    notes: &mut Notes,
    whole: Place,
    state: Chained,
    operator: BinaryOperator,
    part: Option<TypedPart>,
) -> Result<Chained, AllocError>
    ensures { Gives (o.chained_on state operator part) (link_site whole state.of operator part) result notes.old.list notes.new.list }
{
    let Chained { of, run } = state;
    clash_if(notes, whole, of, operator, &part)?;
    let of = match of {
        Some(before) => type_from(before, operator, &part),
        None => None,
    };
    let run = run_after(notes.alloc, run, operator, part)?;
    Ok(Chained { of, run })
}

/// The value of a chain.
pub fn ended(alloc: Global, place: Place, state: Chained) -> Valued
    ensures { IfOk result (λ r. r ≡ o.ended place state.run) }
{
    let Run { first, links, of } = given!(state.run);
    let kind = TypedKind::Chain { first, rest: links };
    fixed(alloc, place, of, kind)
}
