ghost use Rattle.std.specs.Prelude.{◌≡◌};
ghost use Rattle.std.specs.Option.{option_copied};
ghost use Rattle.wg_typing.specs.Named.{at_name};
ghost use Rattle.wg_typing.specs.TypingBarrier as b;

use wg_callees::flag_named;
use wg_scope::Context;
use wg_tree::Named;
use wg_typing::{Flag, Meant, Object, Piece};

fn ordered_object(object: Object) -> Flag
    ensures { result ≡ b.ordered_object object }
{
    match object {
        Object::Input { .. } | Object::Handle { .. } => Flag::Object,
        Object::Buffer { .. } | Object::Output { .. } => Flag::Unknown,
    }
}

/// What a declared name is among the arguments of a barrier.
fn declared_flag(meant: &Meant, name: &[u8]) -> Flag
    ensures { result ≡ b.flag_of (Some meant.now) name.now }
{
    match meant {
        Meant::Object { object } => ordered_object(*object),
        Meant::Broken => Flag::Broken,
        Meant::Struct { .. }
        | Meant::Constant { .. }
        | Meant::Shared { .. }
        | Meant::Variable { .. }
        | Meant::Function { .. }
        | Meant::Itself => Flag::Unknown,
    }
}

fn flag_of(meant: Option<&Meant>, name: &[u8]) -> Flag
    ensures { result ≡ b.flag_of (option_copied meant.entry) name.now }
{
    match meant {
        Some(meant) => declared_flag(meant, name),
        None => flag_named(name),
    }
}

/// What a name is among the arguments of a barrier.
pub fn flag(c: &Context, named: &Named) -> Flag
    ensures { result ≡ b.flag c.now named.now }
{
    let name = named.name.as_slice();
    flag_of(c.names.look(name), name)
}

fn is_flag(flag: Flag) -> bool
    ensures { result ≡ b.is_flag flag }
{
    match flag {
        Flag::Memory | Flag::Scope { .. } => true,
        Flag::Object | Flag::Broken | Flag::Unknown => false,
    }
}

fn piece_is_flag(c: &Context, piece: &Piece) -> bool
    ensures { result ≡ b.piece_is_flag c.now piece.now }
{
    match piece {
        Piece::Word { name } => is_flag(flag(c, name)),
        Piece::Zero | Piece::Other { .. } | Piece::Misused => false,
    }
}

/// Whether one of them is a flag of a barrier.
pub fn any_flag(c: &Context, pieces: &[Piece]) -> bool
    ensures { result ≡ b.any_flag c.now pieces.now }
{
    for piece in pieces {
        if piece_is_flag(c, piece) {
            return true;
        }
    }
    false
}
