ghost use Rattle.std.specs.Prelude.{◌≡◌, Some, IfOk};
ghost use Rattle.std.specs.Option.{option_copied};
ghost use Rattle.wg_tree.specs.declared.expr.TypeName.TheVariants as type_name;
ghost use Rattle.wg_typing.specs.Named as d;
ghost use Rattle.wg_typing.specs.RulesMismatchExpr.{vector_constant};
ghost use Rattle.wg_typing.specs.RulesUnknownName as u;
ghost use Rattle.wg_typing.specs.Scope.{look};
ghost use Rattle.wg_typing.specs.Sites.{at_if, only};
ghost use Rattle.wg_typing.specs.Site.{AtNamed, AtType};
ghost use Rattle.wg_typing.specs.TypingName as t;
ghost use Rattle.wg_typing.specs.TypingOperators.{zeros_value};
ghost use Rattle.wg_notes.specs.Notes.{Gives, Leaves, with_faults};

use std::alloc::Global;
use wg_notes::{Notes, Valued, fixed, valued};
use wg_scope::Context;
use wg_tree::Named;
use wg_typed::{TypeTree, TypedKind};
use wg_typing::{Around, Meant, Standing, Value};
use wg_words::{Name, Place, TryCopy};

fn is_among(names: &[Name], name: &[u8]) -> bool
    ensures { result ≡ d.is_among names.now name.now }
{
    for x in names {
        if x.as_slice() == name {
            return true;
        }
    }
    false
}

/// A name that means a value or an object, in a function.
fn meant_value(alloc: Global, place: Place, meant: &Meant) -> Valued
    ensures { IfOk result (λ r. r ≡ t.name_value place (Some meant.now)) }
{
    match meant {
        Meant::Constant { of, words, .. } => {
            let words = words.copy(alloc)?;
            let kind = TypedKind::Literal { words };
            fixed(alloc, place, *of, kind)
        }
        Meant::Shared { variable, of } => {
            let variable = *variable;
            let kind = TypedKind::Shared { variable };
            valued(alloc, Standing::Memory, place, *of, kind)
        }
        Meant::Variable {
            variable,
            of,
            constant,
        } => {
            let standing = if *constant {
                Standing::Fixed
            } else {
                Standing::Own
            };
            let variable = *variable;
            let kind = TypedKind::Variable { variable };
            valued(alloc, standing, place, *of, kind)
        }
        Meant::Object { object } => Ok(Some(Value::Object {
            object: *object,
            element: None,
        })),
        Meant::Struct { .. } | Meant::Function { .. } | Meant::Itself | Meant::Broken => Ok(None),
    }
}

fn is_no_value(meant: Option<&Meant>) -> bool
    ensures { result ≡ u.is_no_value (option_copied meant.entry) }
{
    match meant {
        None | Some(Meant::Struct { .. } | Meant::Function { .. } | Meant::Itself) => true,
        Some(
            Meant::Constant { .. }
            | Meant::Shared { .. }
            | Meant::Variable { .. }
            | Meant::Object { .. }
            | Meant::Broken,
        ) => false,
    }
}

fn is_no_constant(meant: Option<&Meant>) -> bool
    ensures { result ≡ u.is_no_constant (option_copied meant.entry) }
{
    !matches!(meant, Some(Meant::Constant { .. } | Meant::Broken))
}

fn is_vector_constant(meant: Option<&Meant>) -> bool
    ensures { result ≡ vector_constant (option_copied meant.entry) }
{
    matches!(meant, Some(Meant::Constant { value: None, .. }))
}

/// A name in a function.
fn plain_name(notes: &mut Notes, place: Place, meant: Option<&Meant>) -> Valued
    ensures { Leaves (t.name_value place (option_copied meant.entry)) (with_faults 301 (at_if (u.is_no_value (option_copied meant.entry)) place) notes.old.list) result notes.new.list }
{
    notes.fault_if(is_no_value(meant), 301, place)?;
    match meant {
        Some(meant) => meant_value(notes.alloc, place, meant),
        None => Ok(None),
    }
}

/// A static constant of a scalar type.
fn constant_value(alloc: Global, place: Place, meant: Option<&Meant>) -> Valued
    ensures { IfOk result (λ r. r ≡ t.const_name place (option_copied meant.entry)) }
{
    match meant {
        Some(
            Meant::Constant {
                of,
                words,
                value: Some(_),
            },
        ) => {
            let words = words.copy(alloc)?;
            let kind = TypedKind::Literal { words };
            fixed(alloc, place, *of, kind)
        }
        _ => Ok(None),
    }
}

/// A name in a `const`.
fn const_name(notes: &mut Notes, place: Place, meant: Option<&Meant>) -> Valued
    ensures { Leaves (t.const_name place (option_copied meant.entry)) (with_faults 303 (at_if (vector_constant (option_copied meant.entry)) place) (with_faults 301 (at_if (u.is_no_constant (option_copied meant.entry)) place) notes.old.list)) result notes.new.list }
{
    notes.fault_if(is_no_constant(meant), 301, place)?;
    notes.fault_if(is_vector_constant(meant), 303, place)?;
    constant_value(notes.alloc, place, meant)
}

/// A name by itself.
pub fn name(notes: &mut Notes, c: &Context, name: &Named) -> Valued
    ensures { Gives (t.named_value c.now.around name.now (look name.now.name c.now.names)) (only (AtNamed c.now.around name.now (look name.now.name c.now.names))) result notes.old.list notes.new.list }
{
    let meant = c.names.look(name.name.as_slice());
    match &c.around {
        Around::Entry { .. } | Around::Plain => plain_name(notes, name.place, meant),
        Around::Const => const_name(notes, name.place, meant),
        Around::Attribute { allowed } => {
            if is_among(allowed.as_slice(), name.name.as_slice()) {
                return Ok(None);
            }
            const_name(notes, name.place, meant)
        }
    }
}

fn is_no_struct(meant: Option<&Meant>) -> bool
    ensures { result ≡ u.is_no_struct (option_copied meant.entry) }
{
    !matches!(meant, Some(Meant::Struct { .. } | Meant::Broken))
}

fn struct_zeros(alloc: Global, place: Place, meant: Option<&Meant>) -> Valued
    ensures { IfOk result (λ r. r ≡ zeros_value place (option_copied meant.entry)) }
{
    match meant {
        Some(Meant::Struct { number }) => {
            let number = *number;
            fixed(alloc, place, TypeTree::Struct { number }, TypedKind::Zeros)
        }
        _ => Ok(None),
    }
}

/// `(S)0`, at its first token.
pub fn zeros(notes: &mut Notes, c: &Context, place: Place, of: &Named) -> Valued
    ensures { Gives (zeros_value place (look of.now.name c.now.names)) (only (AtType c.now (type_name.Struct of.now))) result notes.old.list notes.new.list }
{
    let meant = c.names.look(of.name.as_slice());
    notes.fault_if(is_no_struct(meant), 301, of.place)?;
    struct_zeros(notes.alloc, place, meant)
}
