ghost use Rattle.std.specs.Prelude.{◌≡◌, map};
ghost use Rattle.wg_typing.specs.Layers.{map_link};
ghost use Rattle.wg_typing.specs.TypingExpr as t;
ghost use Rattle.wg_notes.specs.Notes.{Gives};
ghost use Rattle.wg_series.specs.Series.{series};
ghost use Rattle.wg_walk.specs.Walk as w;

use sqlite_items::Items;
use std::alloc::AllocError;
use wg_layers::{Seen, casted, named, numbered, prefixed, truths, written, zeroed};
use wg_notes::Notes;
use wg_scope::Context;
use wg_series::{Series, begun, bracketed, chosen, constructed, ended, next};
use wg_tree::{Expr, Link};
use wg_typing::Part;

/// Parts of expressions, or want of memory.
type AllSeen = Result<wg_words::Items<Part>, AllocError>;

/// An expression as a part. Writes down the rules that are broken in it.
#[cycle(walk)]
pub fn part(notes: &mut Notes, c: &Context, e: &Expr) -> Seen
    ensures { Gives (t.part c.now e.now) (t.sites_of c.now e.now) result notes.old.list notes.new.list }
{
    match e {
        Expr::Number {
            place,
            value,
            unsigned,
            long,
        } => numbered(notes.alloc, c, *place, *value, *unsigned, *long),
        Expr::Text { place, bytes } => written(notes.alloc, c, *place, bytes),
        Expr::Truth { place, value } => truths(notes.alloc, c, *place, *value),
        Expr::Name { name } => named(notes, c, name),
        Expr::Zeros { place, of } => zeroed(notes, c, *place, of),
        Expr::Bracket { place, inner } => {
            let inner = part(notes, c, inner.get())?;
            Ok(bracketed(c, *place, inner))
        }
        Expr::Prefix {
            place,
            operator,
            operand: inner,
        } => {
            let inner = operand(notes, c, inner.get())?;
            prefixed(notes, c, *place, *operator, inner)
        }
        Expr::Cast {
            place,
            to,
            operand: inner,
        } => {
            let inner = operand(notes, c, inner.get())?;
            casted(notes, c, *place, *to, inner)
        }
        Expr::Choice { test, then, other } => {
            let test = operand(notes, c, test.get())?;
            let then = operand(notes, c, then.get())?;
            let other = operand(notes, c, other.get())?;
            chosen(notes, c, test, then, other)
        }
        Expr::Chain { first, rest } => {
            let first = operand(notes, c, first.get())?;
            let series = begun(notes.alloc, first);
            let series = links(notes, c, rest, series)?;
            ended(notes.alloc, c, series)
        }
        Expr::Construct {
            place,
            of,
            arguments,
        } => {
            let parts = operands(notes, c, arguments)?;
            constructed(notes, c, *place, *of, parts)
        }
        Expr::Call { .. } | Expr::Postfix { .. } => Err(AllocError),
    }
}

/// An expression that has to be a value.
#[cycle(walk)]
pub fn operand(notes: &mut Notes, c: &Context, e: &Expr) -> Seen
    ensures { Gives (t.part c.now e.now) (t.sites_of_value c.now e.now) result notes.old.list notes.new.list }
{
    let part = part(notes, c, e)?;
    notes.value(&c.around, &part)?;
    Ok(part)
}

/// Expressions that have to be values.
#[cycle(walk)]
fn operands(notes: &mut Notes, c: &Context, es: &Items<Expr>) -> AllSeen
    ensures { Gives (map t.part_of (w.all_seen c.now es.now)) (t.values_sites c.now.around (w.all_seen c.now es.now)) result notes.old.list notes.new.list }
{
    let mut parts = wg_words::Items::new(notes.alloc);
    for e in es.as_slice() {
        let part = operand(notes, c, e)?;
        parts.push(part)?;
    }
    Ok(parts)
}

/// The operators of a chain, from left to right.
#[cycle(walk)]
fn links(
    notes: &mut Notes,
    c: &Context,
    rest: &Items<Link>,
    first: Series,
) -> Result<Series, AllocError>
    ensures { Gives (series first (map (map_link t.part_of) (w.links_seen c.now rest.now))) (t.links_sites c.now.around first.place first.chained.of (w.links_seen c.now rest.now)) result notes.old.list notes.new.list }
{
    let mut series = first;
    for link in rest.as_slice() {
        let part = operand(notes, c, &link.operand)?;
        series = next(notes, series, link.operator, part)?;
    }
    Ok(series)
}
