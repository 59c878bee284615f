ghost use Rattle.std.specs.Prelude.{◌≡◌, IfOk, OnOk};
ghost use Rattle.wg_typing.specs.TypingObjects as o;
ghost use Rattle.wg_notes.specs.Notes.{Leaves};
ghost use Rattle.wg_forms.specs.Elements as e;

use sqlite_items::Boxed;
use std::alloc::Global;
use wg_conversions::uint_type;
use wg_members::begin;
use wg_notes::{Maybe, Noted, Notes, Valued, valued};
use wg_typed::{TypeTree, TypedBufferType, TypedExpr, TypedKind};
use wg_typing::{Along, Object, Part, Standing, Value};
use wg_wanted::{fit, goal, is_typed as has_type};
use wg_words::Place;

fn is_structured(of: TypedBufferType) -> bool
    ensures { result ≡ o.is_structured of }
{
    match of {
        TypedBufferType::Raw { .. } => false,
        TypedBufferType::Structured { .. } => true,
    }
}

fn has_elements(object: Object) -> bool
    ensures { result ≡ o.has_elements object }
{
    match object {
        Object::Buffer { of, .. } => is_structured(of),
        Object::Input { many, record, .. } => match record {
            Some(_) => many,
            None => false,
        },
        Object::Output { array, .. } => array,
        Object::Handle { .. } => true,
    }
}

fn buffer_element(
    alloc: Global,
    place: Place,
    buffer: u32,
    of: TypedBufferType,
    index: Boxed<TypedExpr>,
) -> Valued
    ensures { IfOk result (λ r. r ≡ o.element_of_buffer place buffer of index) }
{
    match of {
        TypedBufferType::Raw { .. } => Ok(None),
        TypedBufferType::Structured { writable, of } => {
            let standing = if writable {
                Standing::Memory
            } else {
                Standing::Fixed
            };
            let kind = TypedKind::Element { buffer, index };
            valued(alloc, standing, place, of, kind)
        }
    }
}

fn input_element(
    alloc: Global,
    place: Place,
    many: bool,
    number: Option<u32>,
    standing: Standing,
    index: Boxed<TypedExpr>,
) -> Valued
    ensures { IfOk result (λ r. r ≡ o.input_element place many number standing index) }
{
    let number = given!(number);
    if !many {
        return Ok(None);
    }
    let index = Some(index);
    let kind = TypedKind::Input { index };
    valued(alloc, standing, place, TypeTree::Struct { number }, kind)
}

/// An element of an array of outputs: an output that has the index.
fn output_element(
    output: u32,
    array: bool,
    number: Option<u32>,
    index: Boxed<TypedExpr>,
) -> Option<Value>
    ensures { result ≡ o.output_element output array number index }
{
    if !array {
        return None;
    }
    let object = Object::Output {
        output,
        array: false,
        record: number,
    };
    let element = Some(index);
    Some(Value::Object { object, element })
}

/// The element of an object at an index, where it has any.
fn element_of(alloc: Global, place: Place, object: Object, index: Boxed<TypedExpr>) -> Valued
    ensures { IfOk result (λ r. r ≡ o.element_value place object index) }
{
    match object {
        Object::Buffer { buffer, of } => buffer_element(alloc, place, buffer, of, index),
        Object::Input {
            many,
            record,
            standing,
            ..
        } => input_element(alloc, place, many, record, standing, index),
        Object::Output {
            output,
            array,
            record,
        } => Ok(output_element(output, array, record, index)),
        Object::Handle {
            handle,
            record: number,
        } => {
            let index = Some(index);
            let kind = TypedKind::Handle { handle, index };
            let of = TypeTree::Struct { number };
            valued(alloc, Standing::Own, place, of, kind)
        }
    }
}

fn at_index(
    alloc: Global,
    place: Place,
    object: Object,
    index: Option<Boxed<TypedExpr>>,
) -> Maybe<Along>
    ensures { IfOk result (λ r. r ≡ e.at_index place object index) }
{
    let index = given!(index);
    let value = given!(element_of(alloc, place, object, index)?);
    Ok(Some(begin(alloc, value)))
}

/// What is noted of an index after an object.
fn indexed(notes: &mut Notes, place: Place, object: Object, at: &Part) -> Noted
    ensures { OnOk result (notes.new.list ≡ e.indexed place object at.now notes.old.list) }
{
    if has_elements(object) {
        return goal(notes, uint_type(), at);
    }
    notes.fault_if(has_type(at), 303, place)
}

/// An index after an object.
pub fn object_element(notes: &mut Notes, place: Place, object: Object, at: Part) -> Maybe<Along>
    ensures { Leaves (e.object_element place object at) (e.indexed place object at notes.old.list) result notes.new.list }
{
    indexed(notes, place, object, &at)?;
    let index = fit(notes.alloc, uint_type(), at)?;
    at_index(notes.alloc, place, object, index)
}
