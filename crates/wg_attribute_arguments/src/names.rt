//! Attributes by their names.
ghost use Rattle.std.specs.Prelude.{◌≡◌, is_some, map, IfOk};
ghost use Rattle.std.specs.Option.{option_copied};
ghost use Rattle.wg_typing.specs.AttributeArguments as g;
ghost use Rattle.wg_typing.specs.Named as n;

use std::alloc::{AllocError, Global};
use wg_typed::TypedAttribute;
use wg_words::{Name, TryCopy};

/// Names of attributes are compared without regard to the case of letters.
#[tactic(auto, using(crate::proofs::Cases::same_names))]
pub fn is_same_name(a: &[u8], b: &[u8]) -> bool
    ensures { result ≡ n.is_same_name a.now b.now }
{
    a.eq_ignore_ascii_case(b)
}

/// A name in small letters.
#[tactic(auto, using(crate::proofs::Cases::smalls_are))]
pub fn small_letters(alloc: Global, name: &Name) -> Result<Vec<u8>, AllocError>
    ensures { IfOk result (λ v. v.items ≡ map n.small name.now) }
{
    let mut letters = name.copy(alloc)?.into_vec();
    letters.as_mut_slice().make_ascii_lowercase();
    Ok(letters)
}

/// The first attribute of a name.
pub fn first_named<'a>(name: &[u8], list: &'a [TypedAttribute]) -> Option<&'a TypedAttribute>
    ensures { option_copied result ≡ g.first_named name.now list.now }
{
    for a in list {
        if is_same_name(name, a.name.name.as_slice()) {
            return Some(a);
        }
    }
    None
}

/// Whether an attribute of the name is there.
pub fn has(name: &[u8], list: &[TypedAttribute]) -> bool
    ensures { result ≡ is_some (g.first_named name.now list.now) }
{
    first_named(name, list).is_some()
}
