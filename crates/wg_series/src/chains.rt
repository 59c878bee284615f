ghost use Rattle.std.specs.Prelude.{◌≡◌, List, IfOk};
ghost use Rattle.wg_tree.specs.declared.expr.Expr.TheOpen.{Expr-F};
ghost use Rattle.wg_typing.specs.Layers.{typed_part};
ghost use Rattle.wg_typing.specs.PartSites.{link_site};
ghost use Rattle.wg_typing.specs.TypingExpr.{layer_part};
ghost use Rattle.wg_typing.specs.TypingFlags as f;
ghost use Rattle.wg_typing.specs.declared.part.LinkLayer.{LinkLayer};
ghost use Rattle.wg_notes.specs.Notes.{Gives};
ghost use Rattle.wg_series.specs.Series as s;

use crate::flags::any_flag;
use sqlite_items::Items;
use std::alloc::{AllocError, Global};
use wg_layers::{Pieces, Seen, another};
use wg_notes::{Notes, typed_part as typed};
use wg_operators::{Chained, begun as chained, ended as whole, link};
use wg_scope::Context;
use wg_tree::BinaryOperator;
use wg_typing::{Part, Piece, TypedPart, Value};
use wg_words::Place;

/// A chain so far: its first token, what its operators give, what its operands are to a barrier, and whether all its operators
/// are `|`.
#[derive(Drop)]
pub struct Series {
    pub place: Place,
    pub chained: Chained,
    pub pieces: Items<Piece>,
    pub joined: bool,
}

/// A part as one that has a type, and what it is to a barrier.
fn parted(alloc: Global, part: Part) -> (Option<TypedPart>, Items<Piece>)
    ensures { result ≡ (typed_part part, part.pieces) }
{
    let Part {
        place,
        value,
        by_name,
        pieces,
    } = part;
    let alone = Part {
        place,
        value,
        by_name,
        pieces: Items::new(alloc),
    };
    (typed(alone), pieces)
}

/// A chain of its first operand, which is looked at as a value.
pub fn begun(alloc: Global, first: Part) -> Series
    ensures { result ≡ s.series_begun first }
{
    let place = first.place;
    let (typed, pieces) = parted(alloc, first);
    Series {
        place,
        chained: chained(alloc, typed),
        pieces,
        joined: true,
    }
}

fn is_or(operator: BinaryOperator) -> bool
    ensures { result ≡ f.is_or operator }
{
    matches!(operator, BinaryOperator::BitOr)
}

/// One more operator and its operand, which is looked at as a value.
pub fn next(
    notes: &mut Notes,
    series: Series,
    operator: BinaryOperator,
    operand: Part,
) -> Result<Series, AllocError>
    ensures { Gives (s.series_on series operator operand) (link_site series.place series.chained.of operator (typed_part operand)) result notes.old.list notes.new.list }
{
    let Series {
        place,
        chained,
        mut pieces,
        joined,
    } = series;
    let (typed, more) = parted(notes.alloc, operand);
    let chained = link(notes, place, chained, operator, typed)?;
    pieces.append(more)?;
    Ok(Series {
        place,
        chained,
        pieces,
        joined: joined & is_or(operator),
    })
}

/// What a chain is to a barrier: its operands, where it is read as flags.
fn chain_pieces(
    alloc: Global,
    c: &Context,
    value: &Option<Value>,
    joined: bool,
    operands: Items<Piece>,
) -> Pieces
    ensures { IfOk result (λ r. r ≡ s.chain_pieces c.now value.now joined operands) }
{
    if joined {
        return Ok(operands);
    }
    if !any_flag(c, operands.as_slice()) {
        return another(alloc, value);
    }
    let mut pieces = Items::new(alloc);
    pieces.push(Piece::Misused)?;
    pieces.append(operands)?;
    Ok(pieces)
}

/// A chain as a part: of whatever operands it is.
#[tactic(auto, using(crate::proofs::Runs::chain_is))]
pub fn ended(alloc: Global, c: &Context, series: Series) -> Seen
    ensures { IfOk result (λ r. (first : Part) (rest : List (LinkLayer Part)) → series ≡ s.series_of first rest → r ≡ layer_part c.now (Expr-F.Chain first rest)) }
{
    let Series {
        place,
        chained,
        pieces,
        joined,
    } = series;
    let value = whole(alloc, place, chained)?;
    let pieces = chain_pieces(alloc, c, &value, joined, pieces)?;
    Ok(Part {
        place,
        value,
        by_name: None,
        pieces,
    })
}
