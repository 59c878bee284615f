ghost use Rattle.std.specs.Prelude.{◌≡◌, IfOk, OnOk};
ghost use Rattle.wg_typing.specs.PartSites as s;
ghost use Rattle.wg_typing.specs.RulesMismatchCall as m;
ghost use Rattle.wg_typing.specs.Site.{AtArgument};
ghost use Rattle.wg_typing.specs.TypingFunctionCall as f;
ghost use Rattle.wg_typing.specs.TypingInterlocked as i;
ghost use Rattle.wg_notes.specs.Notes.{Gives, noted};

use crate::fitting::{all_are_typed, fit};
use sqlite_items::Boxed;
use std::alloc::Global;
use wg_conversions::{fits, same_type};
use wg_notes::{Maybe, Noted, Notes, Valued, fixed, typed_part};
use wg_tree::Direction;
use wg_typed::{TypeTree, TypedExpr, TypedKind, TypedStep};
use wg_typing::{Act, FormalParameter, Part, Standing, Value};
use wg_words::{Items, Place};

/// Whether what stands so cannot be assigned.
pub fn is_fixed(standing: Standing) -> bool
    ensures { result ≡ i.is_fixed standing }
{
    match standing {
        Standing::Fixed => true,
        Standing::Own | Standing::Memory => false,
    }
}

/// Whether an argument is copied back when the call returns.
pub fn is_given_back(direction: Direction) -> bool
    ensures { result ≡ f.is_given_back direction }
{
    match direction {
        Direction::In => false,
        Direction::Out | Direction::InOut => true,
    }
}

/// What is noted of an argument of a plain function.
fn argument(notes: &mut Notes, a: FormalParameter, part: &Part) -> Noted
    ensures { OnOk result (notes.new.list ≡ noted (s.part_site (AtArgument a) part.now) notes.old.list) }
{
    match &part.value {
        Some(Value::Typed { of, standing, .. }) => {
            if is_given_back(a.direction) {
                notes.fault_if(!same_type(*of, a.of), 303, part.place)?;
                notes.fault_if(is_fixed(*standing), 304, part.place)
            } else {
                notes.fault_if(!fits(*of, a.of), 303, part.place)
            }
        }
        Some(Value::Object { .. } | Value::Act { .. } | Value::Text { .. }) | None => Ok(()),
    }
}

fn arguments(notes: &mut Notes, parameters: &[FormalParameter], parts: &[Part]) -> Noted
    ensures { OnOk result (notes.new.list ≡ noted (s.passed_sites parameters.now parts.now) notes.old.list) }
{
    let mut parameters = parameters;
    for part in parts {
        let Some((first, rest)) = parameters.split_first() else {
            return Ok(());
        };
        argument(notes, *first, part)?;
        parameters = rest;
    }
    Ok(())
}

/// What is noted of the arguments of a plain function, where all of them have types.
fn counted(notes: &mut Notes, name: Place, parameters: &[FormalParameter], parts: &[Part]) -> Noted
    ensures { OnOk result (notes.new.list ≡ noted (s.where_typed parts.now (s.counted_sites name (s.same_length parameters.now parts.now) (s.passed_sites parameters.now parts.now))) notes.old.list) }
{
    if !all_are_typed(parts) {
        return Ok(());
    }
    let right = parameters.len() == parts.len();
    notes.fault_if(!right, 310, name)?;
    if right {
        arguments(notes, parameters, parts)
    } else {
        Ok(())
    }
}

/// An assignable place of the type itself.
fn passed_place(of: TypeTree, part: Part) -> Option<Boxed<TypedExpr>>
    ensures { result ≡ f.passed_place of part }
{
    let t = typed_part(part)?;
    if same_type(t.of, of) & !is_fixed(t.standing) {
        Some(t.tree)
    } else {
        None
    }
}

/// An argument of a plain function as it is passed.
fn passed(alloc: Global, a: FormalParameter, part: Part) -> Maybe<Boxed<TypedExpr>>
    ensures { IfOk result (λ r. r ≡ f.passed_as a.direction a.of part) }
{
    match a.direction {
        Direction::In => fit(alloc, a.of, part),
        Direction::Out | Direction::InOut => Ok(passed_place(a.of, part)),
    }
}

#[tactic(auto, using(crate::proofs::After::after_more, crate::proofs::After::after_end, crate::proofs::After::passed_short, crate::proofs::After::passed_long))]
fn passed_all(
    alloc: Global,
    parameters: &[FormalParameter],
    parts: Items<Part>,
) -> Maybe<Items<TypedExpr>>
    ensures { IfOk result (λ r. r ≡ f.passed_all parameters.now parts) }
{
    let mut done = Items::new(alloc);
    let mut parameters = parameters;
    for part in parts.into_vec() {
        let Some((first, rest)) = parameters.split_first() else {
            return Ok(None);
        };
        let tree = given!(passed(alloc, *first, part)?);
        done.push(tree.into_inner())?;
        parameters = rest;
    }
    match parameters.split_first() {
        Some(_) => Ok(None),
        None => Ok(Some(done)),
    }
}

/// The call of a function: a step where it has no result.
fn plain_call(
    alloc: Global,
    name: Place,
    function: u32,
    gives: Option<TypeTree>,
    arguments: Items<TypedExpr>,
) -> Valued
    ensures { IfOk result (λ r. r ≡ f.plain_call name function gives arguments) }
{
    let arguments = sqlite_items::Items::from_vec(arguments.into_vec());
    match gives {
        Some(of) => {
            let kind = TypedKind::Call {
                function,
                arguments,
            };
            fixed(alloc, name, of, kind)
        }
        None => {
            let step = TypedStep::Call {
                function,
                arguments,
            };
            let step = Boxed::new(alloc, step)?;
            let act = Act::Step { step };
            Ok(Some(Value::Act { name, act }))
        }
    }
}

fn plain_value(
    alloc: Global,
    name: Place,
    function: u32,
    gives: Option<TypeTree>,
    parameters: &[FormalParameter],
    chain: u32,
    parts: Items<Part>,
) -> Valued
    ensures { IfOk result (λ r. r ≡ f.plain_value name function gives parameters.now chain parts) }
{
    let arguments = given!(passed_all(alloc, parameters, parts)?);
    if chain < 16 {
        plain_call(alloc, name, function, gives, arguments)
    } else {
        Ok(None)
    }
}

/// The call of a plain function by its name, of parts that are looked at as values: what it gives, and what is noted of its
/// arguments.
pub fn plain(
    notes: &mut Notes,
    name: Place,
    function: u32,
    gives: Option<TypeTree>,
    parameters: &[FormalParameter],
    chain: u32,
    parts: Items<Part>,
) -> Valued
    ensures { Gives (f.plain_value name function gives parameters.now chain parts) (s.where_typed parts (s.counted_sites name (s.same_length parameters.now parts) (s.passed_sites parameters.now parts))) result notes.old.list notes.new.list }
{
    counted(notes, name, parameters, parts.as_slice())?;
    plain_value(notes.alloc, name, function, gives, parameters, chain, parts)
}
