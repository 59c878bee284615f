ghost use Rattle.std.specs.Prelude.{◌≡◌, IfOk};
ghost use Rattle.wg_typing.specs.Conversions.{of_value_type};
ghost use Rattle.wg_typing.specs.PartSites as s;
ghost use Rattle.wg_typing.specs.Site.{AtGoal, AtNumber};
ghost use Rattle.wg_typing.specs.TypingExpr.{layer_part, layer_sites};
ghost use Rattle.wg_typing.specs.TypingFlags as f;
ghost use Rattle.wg_tree.specs.declared.expr.Expr.TheOpen.{Expr-F};
ghost use Rattle.wg_notes.specs.Notes.{Gives};
ghost use Rattle.wg_layers.specs.Parts as w;

use sqlite_items::Items;
use std::alloc::{AllocError, Global};
use wg_conversions::of_value_type as value_type;
use wg_names::{name, number, text, truth, zeros};
use wg_notes::{Notes, act_kind, typed_part};
use wg_operators::{cast, prefix};
use wg_scope::Context;
use wg_tree::{Named, PrefixOperator, ValueType};
use wg_typing::{Part, Piece, Value};
use wg_words::{Name, Place, TryCopy};

/// An expression as a part, or want of memory.
pub type Seen = Result<Part, AllocError>;

/// What an expression is to a barrier, or want of memory.
pub type Pieces = Result<Items<Piece>, AllocError>;

/// Whether no rule is broken in what has this value.
fn is_whole(value: &Option<Value>) -> bool
    ensures { result ≡ f.is_whole value.now }
{
    match value {
        Some(Value::Typed { .. } | Value::Object { .. } | Value::Text { .. }) => true,
        Some(Value::Act { act, .. }) => act_kind(act).is_none(),
        None => false,
    }
}

/// What an expression is to a barrier that is no flag.
pub fn another(alloc: Global, value: &Option<Value>) -> Pieces
    ensures { IfOk result (λ r. r ≡ f.another value.now) }
{
    let whole = is_whole(value);
    let mut pieces = Items::new(alloc);
    pieces.push(Piece::Other { whole })?;
    Ok(pieces)
}

/// An expression that is no flag of a barrier and no call.
pub fn plain(alloc: Global, place: Place, value: Option<Value>) -> Seen
    ensures { IfOk result (λ r. r ≡ w.plain_part place value) }
{
    let pieces = another(alloc, &value)?;
    Ok(Part {
        place,
        value,
        by_name: None,
        pieces,
    })
}

fn number_pieces(alloc: Global, n: u64, value: &Option<Value>) -> Pieces
    ensures { IfOk result (λ r. r ≡ w.number_pieces n value.now) }
{
    if n != 0 {
        return another(alloc, value);
    }
    let mut pieces = Items::new(alloc);
    pieces.push(Piece::Zero)?;
    Ok(pieces)
}

/// A number.
pub fn numbered(
    alloc: Global,
    c: &Context,
    place: Place,
    n: u64,
    unsigned: bool,
    long: bool,
) -> Seen
    ensures { IfOk result (λ r. r ≡ layer_part c.now (Expr-F.Number place n unsigned long)) }
{
    let value = number(alloc, place, n, unsigned, long)?;
    let pieces = number_pieces(alloc, n, &value)?;
    Ok(Part {
        place,
        value,
        by_name: None,
        pieces,
    })
}

/// A string.
pub fn written(alloc: Global, c: &Context, place: Place, bytes: &Name) -> Seen
    ensures { IfOk result (λ r. r ≡ layer_part c.now (Expr-F.Text place bytes.now)) }
{
    let value = text(alloc, bytes)?;
    plain(alloc, place, value)
}

/// `true` or `false`.
pub fn truths(alloc: Global, c: &Context, place: Place, b: bool) -> Seen
    ensures { IfOk result (λ r. r ≡ layer_part c.now (Expr-F.Truth place b)) }
{
    let value = truth(alloc, place, b)?;
    plain(alloc, place, value)
}

fn word(alloc: Global, named: &Named) -> Pieces
    ensures { IfOk result (λ r. r ≡ w.word_pieces named.now) }
{
    let name = Named {
        name: named.name.copy(alloc)?,
        place: named.place,
    };
    let mut pieces = Items::new(alloc);
    pieces.push(Piece::Word { name })?;
    Ok(pieces)
}

/// A name by itself.
pub fn named(notes: &mut Notes, c: &Context, named: &Named) -> Seen
    ensures { Gives (layer_part c.now (Expr-F.Name named.now)) (layer_sites c.now (Expr-F.Name named.now)) result notes.old.list notes.new.list }
{
    let value = name(notes, c, named)?;
    let pieces = word(notes.alloc, named)?;
    Ok(Part {
        place: named.place,
        value,
        by_name: None,
        pieces,
    })
}

/// `(S)0`.
pub fn zeroed(notes: &mut Notes, c: &Context, place: Place, of: &Named) -> Seen
    ensures { Gives (layer_part c.now (Expr-F.Zeros place of.now)) (layer_sites c.now (Expr-F.Zeros place of.now)) result notes.old.list notes.new.list }
{
    let value = zeros(notes, c, place, of)?;
    plain(notes.alloc, place, value)
}

/// A prefix operator and its operand, which is looked at as a value.
pub fn prefixed(
    notes: &mut Notes,
    c: &Context,
    place: Place,
    operator: PrefixOperator,
    operand: Part,
) -> Seen
    ensures { Gives (layer_part c.now (Expr-F.Prefix place operator operand)) (s.part_site AtNumber operand) result notes.old.list notes.new.list }
{
    let value = prefix(notes, place, operator, typed_part(operand))?;
    plain(notes.alloc, place, value)
}

/// A cast of an operand, which is looked at as a value.
pub fn casted(notes: &mut Notes, c: &Context, place: Place, to: ValueType, operand: Part) -> Seen
    ensures { Gives (layer_part c.now (Expr-F.Cast place to operand)) (s.goal_site (of_value_type to) operand) result notes.old.list notes.new.list }
{
    let value = cast(notes, place, value_type(to), typed_part(operand))?;
    plain(notes.alloc, place, value)
}
