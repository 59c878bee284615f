ghost use Rattle.std.specs.Prelude.{◌≡◌, OnOk, if◌then◌else◌, []};
ghost use Rattle.wg_typing.specs.PartSites.{counted_sites, passed_sites, same_length, where_typed};
ghost use Rattle.wg_typing.specs.TypingChanged as t;
ghost use Rattle.wg_typing.specs.TypingFunctionCall.{is_given_back, plain_value};
ghost use Rattle.wg_notes.specs.Notes.{Leaves, noted, with_events};
ghost use Rattle.wg_functions.specs.Called.{plain_noted};

use crate::changes::changed;
use wg_notes::{Noted, Notes, Valued};
use wg_typed::TypeTree;
use wg_typing::{Event, FormalParameter, Part};
use wg_wanted::{is_given_back as is_returned, plain};
use wg_words::{Items, Place};

/// The variable that changes where an argument is copied back.
fn given(notes: &mut Notes, a: FormalParameter, part: &Part) -> Noted
    ensures { OnOk result (notes.new.list ≡ with_events (if is_given_back a.direction then t.changed part.now else []) notes.old.list) }
{
    if is_returned(a.direction) {
        changed(notes, part)
    } else {
        Ok(())
    }
}

/// The variables that change as arguments of a plain function.
#[tactic(auto, using(crate::proofs::Returned::one_more))]
fn given_back(notes: &mut Notes, parameters: &[FormalParameter], parts: &[Part]) -> Noted
    ensures { OnOk result (notes.new.list ≡ with_events (t.given_back parameters.now parts.now) notes.old.list) }
{
    let mut parameters = parameters;
    for part in parts {
        let Some((first, rest)) = parameters.split_first() else {
            return Ok(());
        };
        given(notes, *first, part)?;
        parameters = rest;
    }
    Ok(())
}

/// What is noted of a call of a plain function, whatever its arguments are.
fn plain_call(
    notes: &mut Notes,
    name: Place,
    parameters: &[FormalParameter],
    chain: u32,
    parts: &[Part],
) -> Noted
    ensures { OnOk result (notes.new.list ≡ plain_noted name parameters.now chain parts.now notes.old.list) }
{
    notes.fault_if(chain >= 16, 306, name)?;
    notes.event(Event::Calls { chain })?;
    given_back(notes, parameters, parts)
}

/// The call of a plain function by its name, of parts that are looked at as values.
pub fn plain_called(
    notes: &mut Notes,
    name: Place,
    function: u32,
    gives: Option<TypeTree>,
    parameters: &[FormalParameter],
    chain: u32,
    parts: Items<Part>,
) -> Valued
    ensures { Leaves (plain_value name function gives parameters.now chain parts) (noted (where_typed parts (counted_sites name (same_length parameters.now parts) (passed_sites parameters.now parts))) (plain_noted name parameters.now chain parts notes.old.list)) result notes.new.list }
{
    plain_call(notes, name, parameters, chain, parts.as_slice())?;
    plain(notes, name, function, gives, parameters, chain, parts)
}
