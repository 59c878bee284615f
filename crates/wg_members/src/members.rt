ghost use Rattle.std.specs.Prelude.{◌≡◌, slice_get, IfOk};
ghost use Rattle.wg_typed.specs.Layout as layout;
ghost use Rattle.wg_typed.specs.declared.typed_expr.Access.TheVariants as access;
ghost use Rattle.wg_typing.specs.PartSites.{typed_form_sites};
ghost use Rattle.wg_typing.specs.RulesMismatchExpr as m;
ghost use Rattle.wg_typing.specs.Site.{AtForm};
ghost use Rattle.wg_typing.specs.Sites.{only, ◌&◌};
ghost use Rattle.wg_typing.specs.TypingForms as t;
ghost use Rattle.wg_typing.specs.declared.part.Along.TheVariants as along;
ghost use Rattle.wg_typing.specs.declared.part.FormLayer.TheVariants as form_layer;
ghost use Rattle.wg_notes.specs.Notes.{Gives};

use sqlite_items::Items;
use std::alloc::{AllocError, Global};
use wg_conversions::uint_type;
use wg_notes::{Maybe, Notes};
use wg_scope::Context;
use wg_tree::{Named, Scalar};
use wg_typed::{Access, ElementType, TypeTree, TypedField, TypedStruct};
use wg_typing::{Along, FoundField, Part, Reached, Standing};
use wg_wanted::{fit, goal, is_typed};
use wg_words::{Place, Words};

fn element_type(of: ElementType) -> TypeTree
    ensures { result ≡ layout.element_type of }
{
    match of {
        ElementType::Scalar { of } => TypeTree::Scalar { of },
        ElementType::Vector { of, size } => TypeTree::Vector { of, size },
        ElementType::Struct { number } => TypeTree::Struct { number },
    }
}

fn is_array(of: TypeTree) -> bool
    ensures { result ≡ m.is_array of }
{
    match of {
        TypeTree::Array { .. } => true,
        TypeTree::Scalar { .. } | TypeTree::Vector { .. } | TypeTree::Struct { .. } => false,
    }
}

/// The field of a name. A number that no `u32` holds is want of memory.
fn field_of(fields: &[TypedField], name: &[u8]) -> Maybe<FoundField>
    ensures { IfOk result (λ r. r ≡ t.field_from 0 name.now fields.now) }
{
    let mut number = 0;
    for field in fields {
        if field.name.name.as_slice() == name {
            let of = field.of;
            return Ok(Some(FoundField { number, of }));
        }
        number = number.checked_add(1).ok_or(AllocError)?;
    }
    Ok(None)
}

fn struct_field(structs: &Items<TypedStruct>, number: u32, name: &[u8]) -> Maybe<FoundField>
    ensures { IfOk result (λ r. r ≡ t.struct_field name.now (slice_get structs.now number)) }
{
    match structs.get(number as usize) {
        Some(s) => field_of(s.fields.as_slice(), name),
        None => Ok(None),
    }
}

/// The component of a letter, where the vector has it.
fn component_in(size: u32, byte: u8) -> Option<u32>
    ensures { result ≡ t.component_in size byte }
{
    let n = match byte {
        b'x' => 0,
        b'y' => 1,
        b'z' => 2,
        b'w' => 3,
        _ => return None,
    };
    if n < size { Some(n) } else { None }
}

/// From one to four letters of components that the vector has.
#[tactic(auto, using(crate::proofs::After::after_more, crate::proofs::After::after_end))]
fn components_in(alloc: Global, size: u32, name: &[u8]) -> Maybe<Words>
    ensures { IfOk result (λ r. r ≡ t.components_in size name.now) }
{
    if name.is_empty() | (name.len() >= 5) {
        return Ok(None);
    }
    let mut components = Words::new(alloc);
    for byte in name {
        let n = given!(component_in(size, *byte));
        components.push(n)?;
    }
    Ok(Some(components))
}

fn extended(mut r: Reached, of: TypeTree, standing: Standing, access: Access) -> Maybe<Along>
    ensures { IfOk result (λ a. a ≡ t.extended r of standing access) }
{
    r.accesses.push(access)?;
    let reached = Reached {
        of,
        standing,
        base: r.base,
        accesses: r.accesses,
    };
    Ok(Some(Along::Typed { reached }))
}

/// One component stands where its vector does; several cannot be assigned.
fn picked(of: Scalar, r: Reached, components: Words) -> Maybe<Along>
    ensures { IfOk result (λ a. a ≡ t.picked of r components) }
{
    let size = components.len();
    if size == 0 {
        return Ok(None);
    }
    if size == 1 {
        let of = TypeTree::Scalar { of };
        let standing = r.standing;
        return extended(r, of, standing, Access::Components { components, of });
    }
    let size = u32::try_from(size).map_err(|_| AllocError)?;
    let of = TypeTree::Vector { of, size };
    let access = Access::Components { components, of };
    extended(r, of, Standing::Fixed, access)
}

fn field(r: Reached, found: FoundField) -> Maybe<Along>
    ensures { IfOk result (λ a. a ≡ t.extended r found.of r.standing (access.Field found.number found.of)) }
{
    let standing = r.standing;
    let of = found.of;
    let field = found.number;
    extended(r, of, standing, Access::Field { field, of })
}

fn member_of(alloc: Global, structs: &Items<TypedStruct>, name: &[u8], r: Reached) -> Maybe<Along>
    ensures { IfOk result (λ a. a ≡ t.member_of structs.now r.of name.now r) }
{
    match r.of {
        TypeTree::Vector { of, size } => {
            let components = given!(components_in(alloc, size, name)?);
            picked(of, r, components)
        }
        TypeTree::Struct { number } => {
            let found = given!(struct_field(structs, number, name)?);
            field(r, found)
        }
        TypeTree::Scalar { .. } | TypeTree::Array { .. } => Ok(None),
    }
}

/// A member or a component of a value that has a type.
pub fn member(
    notes: &mut Notes,
    c: &Context,
    place: Place,
    r: Reached,
    name: &Named,
) -> Maybe<Along>
    ensures { Gives (t.form_on c.now place (along.Typed r) (form_layer.Member name.now)) (only (AtForm c.now place (along.Typed r) (form_layer.Member name.now))) result notes.old.list notes.new.list }
{
    let next = member_of(notes.alloc, &c.structs, name.name.as_slice(), r)?;
    notes.fault_if(next.is_none(), 301, name.place)?;
    Ok(next)
}

fn indexed(alloc: Global, at: Part, r: Reached) -> Maybe<Along>
    ensures { IfOk result (λ a. a ≡ t.indexed r.of at r) }
{
    match r.of {
        TypeTree::Array { of, .. } => {
            let index = given!(fit(alloc, uint_type(), at)?);
            let of = element_type(of);
            let standing = r.standing;
            let index = index.into_inner();
            extended(r, of, standing, Access::Index { index, of })
        }
        TypeTree::Scalar { .. } | TypeTree::Vector { .. } | TypeTree::Struct { .. } => Ok(None),
    }
}

/// An index after a value that has a type: an element of an array.
pub fn element(notes: &mut Notes, c: &Context, place: Place, r: Reached, at: Part) -> Maybe<Along>
    ensures { Gives (t.form_on c.now place (along.Typed r) (form_layer.Index at)) (only (AtForm c.now place (along.Typed r) (form_layer.Index at)) & typed_form_sites r.of (form_layer.Index at)) result notes.old.list notes.new.list }
{
    if is_array(r.of) {
        goal(notes, uint_type(), &at)?;
    } else {
        notes.fault_if(is_typed(&at), 303, place)?;
    }
    indexed(notes.alloc, at, r)
}
