//! The rules at each site.
ghost use Rattle.std.specs.Prelude.{◌≡◌, List};
ghost use Rattle.std.specs.List.{list_any};
ghost use Rattle.wg_typed.specs.declared.typed_stmt.TypedAttribute.{TypedAttribute as OfAttribute};
ghost use Rattle.wg_typing.specs.AttributeNames.{standing};
ghost use Rattle.wg_typing.specs.AttributeRange.{is_out_of_form as has_other_form};
ghost use Rattle.wg_typing.specs.AttributeSites as s;
ghost use Rattle.wg_typing.specs.AttributeTwice.{clashes};
ghost use Rattle.wg_attribute_rules.specs.Noted.{noted_at};
ghost use Rattle.wg_attribute_rules.specs.Positions.{position_of};

use crate::forms::has_form;
use crate::lacks::{
    is_forbidden, is_not_given, node_lacks, output_lacks, refuses_input, system_of,
};
use crate::noted::note_if;
use crate::positions::Position;
use wg_tree::ObjectWord;
use wg_typed::{TypedArgument, TypedAttribute, TypedField, TypedFunction, TypedParameter};
use wg_typing::{AttributeName, AttributeRule, Fault, Mode};

fn is_out_of_form(
    position: Position<'_>,
    arguments: &[TypedArgument],
    name: Option<AttributeName>,
) -> bool
    ensures { result ≡ has_other_form (position_of position.entry) arguments.now name }
{
    match name {
        Some(name) => !has_form(position, name, arguments),
        None => false,
    }
}

/// The rules at an attribute that stands so, and clashes with one before it or does not.
pub fn at_attribute(
    position: Position<'_>,
    a: &TypedAttribute,
    name: Option<AttributeName>,
    twice: bool,
    best: Option<Fault>,
) -> Option<Fault>
    ensures { (before : List OfAttribute) → name ≡ standing (position_of position.entry) a.now → twice ≡ list_any (clashes (position_of position.entry) a.now) before → result ≡ noted_at (s.AtAttribute (position_of position.entry) before a.now) best }
{
    let place = a.name.place;
    let arguments = a.arguments.as_slice();
    let best = note_if(best, name.is_none(), AttributeRule::Unknown, place);
    let best = note_if(best, twice, AttributeRule::Twice, place);
    let other_form = is_out_of_form(position, arguments, name);
    let best = note_if(best, other_form, AttributeRule::Range, place);
    let forbidden = is_forbidden(position, name);
    note_if(best, forbidden, AttributeRule::WrongMode, place)
}

/// The rules at a node.
pub fn at_node(f: &TypedFunction, fields: &[TypedField], best: Option<Fault>) -> Option<Fault>
    ensures { result ≡ noted_at (s.AtNode f.now fields.now) best }
{
    let lacks = node_lacks(f.attributes.as_slice(), fields);
    note_if(best, lacks, AttributeRule::Missing, f.name.place)
}

/// The rules at an input.
pub fn at_input(
    mode: Option<Mode>,
    word: ObjectWord,
    p: &TypedParameter,
    best: Option<Fault>,
) -> Option<Fault>
    ensures { result ≡ noted_at (s.AtInput mode word p.now) best }
{
    let refused = refuses_input(word, mode);
    note_if(best, refused, AttributeRule::WrongMode, p.name.place)
}

/// The rules at an output.
pub fn at_output(array: bool, p: &TypedParameter, best: Option<Fault>) -> Option<Fault>
    ensures { result ≡ noted_at (s.AtOutput array p.now) best }
{
    let lacks = output_lacks(array, p.attributes.as_slice());
    note_if(best, lacks, AttributeRule::Missing, p.name.place)
}

/// The rules at a parameter of a node that is no object.
pub fn at_value(mode: Option<Mode>, p: &TypedParameter, best: Option<Fault>) -> Option<Fault>
    ensures { result ≡ noted_at (s.AtValue mode p.now) best }
{
    let value = system_of(p);
    let best = note_if(best, value.is_none(), AttributeRule::Missing, p.name.place);
    let refused = is_not_given(mode, value);
    note_if(best, refused, AttributeRule::WrongMode, p.name.place)
}
