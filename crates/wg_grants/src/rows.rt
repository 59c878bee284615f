ghost use Rattle.std.specs.Prelude.{◌≡◌, ◌<◌, ◌≤◌, ◌+◌, ◌++◌, ◌∷◌, ◌==◌, ◌&&◌, ◌||◌, [], List, ℕ, length, nat_le, replicate, if◌then◌else◌, Some, None, IfOk, OnOk, OnErr, slice_get, slice_index, slice_set};
ghost use Rattle.std.specs.Map.{lookup};
ghost use Rattle.wg_machine.specs.Buffers.{with_word};
ghost use Rattle.wg_code.specs.Records.{items_at, open_items, grants_with};
ghost use Rattle.wg_state.specs.Requests.{is_numbered};
ghost use Rattle.wg_state.specs.WordLists.{zeros, list_at};
ghost use Rattle.wg_grants.specs.Rows.{AreFound, grants_of, spans_of, row_grant, is_key, key_of};
ghost use Rattle.wg_grants.specs.Spans.{LieFrom, part_of};

use crate::lists::Block;
use crate::spans::Span;
use std::alloc::{AllocError, Global};
use std::collections::HashMap;
use wg_state::Grant;
use wg_words::{Items, Word, WordLists, Words};

/// A handle on a lane.
#[derive(Clone, Copy, Debug, PartialEq, Eq, Hash)]
pub struct LaneHandle {
    pub handle: u32,
    pub lane: u32,
}

/// A grant, with the places of its records among all of the launch.
#[derive(Clone, Copy, Debug, PartialEq, Eq)]
pub struct Row {
    pub handle: Option<u32>,
    pub lane: u32,
    pub output: u32,
    pub element: u32,
    pub complete: bool,
    pub span: Span,
}

/// By handle and lane, the place of its latest grant among the rows.
pub type Latest = HashMap<LaneHandle, u64>;

/// Puts so many more records of zeros behind the others. After an error there may be some of them.
pub fn add_zeros(records: &mut Block, count: u32, words: u32) -> Result<(), AllocError>
    ensures grows { (more : List (List ℕ)) × (records.new ≡ records.old ++ more) }
    ensures ok { OnOk result (records.new ≡ records.old ++ replicate count (zeros words)) }
{
    for _i in 0..count {
        records.push_zeros(words)?;
    }
    Ok(())
}

/// Puts records of these words behind the others. After an error there may be some of them.
pub fn add_copies(records: &mut Block, lists: &[Words]) -> Result<(), AllocError>
    ensures grows { (more : List (List ℕ)) × (records.new ≡ records.old ++ more) }
    ensures ok { OnOk result (records.new ≡ records.old ++ lists.now) }
{
    for words in lists {
        records.push_copy(words.as_slice())?;
    }
    Ok(())
}

/// Notes a grant's place, where it has a handle.
fn note(latest: &mut Latest, handle: Option<u32>, lane: u32, at: u64) -> Result<(), AllocError>
    ensures ok { OnOk result ((h l : ℕ) → lookup (is_key (key_of h l)) latest.new.entries ≡ (if is_numbered handle h && (lane == l) then Some at else lookup (is_key (key_of h l)) latest.old.entries)) }
    ensures err { OnErr result ((h l : ℕ) → lookup (is_key (key_of h l)) latest.new.entries ≡ lookup (is_key (key_of h l)) latest.old.entries) }
{
    match handle {
        None => Ok(()),
        Some(handle) => {
            latest.insert(LaneHandle { handle, lane }, at)?;
            Ok(())
        }
    }
}

/// One more row, noted as its handle's latest; or neither.
pub fn add_row(rows: &mut Vec<Row>, latest: &mut Latest, row: Row) -> Result<(), AllocError>
    requires { AreFound rows.old.items latest.old.entries }
    ensures ok { OnOk result (rows.new.items ≡ rows.old.items ++ row ∷ []) }
    ensures err { OnErr result (rows.new.items ≡ rows.old.items) }
    ensures found { AreFound rows.new.items latest.new.entries }
{
    rows.reserve(1)?;
    let at = rows.as_slice().len() as u64;
    note(latest, row.handle, row.lane, at)?;
    rows.push(row)?;
    Ok(())
}

/// The place of a record of a span among all.
fn place(records: &Block, span: Span, index: u32) -> usize
    requires { span.first + index < length records.now }
    ensures { result ≡ span.first + index }
{
    let _ = records.len();
    span.first + index as usize
}

/// A word of a record of a row; 0 where there is none, or the row is closed.
fn row_word(row: Row, records: &Block, index: u32, at: u32) -> Word
    requires { row.span.first + row.span.count ≤ length records.now }
    ensures { result ≡ slice_index (list_at (open_items (Some (row_grant row (part_of row.span records.now)))) index) at }
{
    if row.complete || index as usize >= row.span.count {
        0
    } else {
        records.word(place(records, row.span, index), at)
    }
}

/// A word of a record of a grant; 0 where there is none, or the grant is closed.
pub fn word_in(rows: &[Row], records: &Block, grant: u64, index: u32, at: u32) -> Word
    requires { LieFrom 0 (spans_of rows.now) (length records.now) }
    ensures { result ≡ slice_index (list_at (items_at (Some grant) (grants_of rows.now records.now)) index) at }
{
    match rows.get(grant as usize) {
        Some(row) => row_word(*row, records, index, at),
        None => 0,
    }
}

/// Sets a word of a record of a row; where there is none, or the row is closed, nothing is.
fn put_row(row: Row, records: &mut Block, index: u32, at: u32, value: Word)
    requires { row.span.first + row.span.count ≤ length records.old }
    ensures { records.new ≡ (if row.complete || nat_le row.span.count index then records.old else with_word records.old (row.span.first + index) at value) }
{
    if !row.complete && (index as usize) < row.span.count {
        let place = place(records, row.span, index);
        records.put(place, at, value);
    }
}

/// Sets a word of a record of a grant; where there is none, or the grant is closed, nothing is.
pub fn put_in(rows: &[Row], records: &mut Block, grant: u64, index: u32, at: u32, value: Word)
    requires { LieFrom 0 (spans_of rows.now) (length records.old) }
    ensures grants { grants_of rows.now records.new ≡ grants_with (Some grant) index (λ (words : List ℕ). slice_set words at value) (grants_of rows.now records.old) }
    ensures size { length records.new ≡ length records.old }
{
    match rows.get(grant as usize) {
        Some(row) => put_row(*row, records, index, at, value),
        None => (),
    }
}

/// The records of a span.
fn records_of(alloc: Global, records: &Block, span: Span) -> Result<WordLists, AllocError>
    requires { span.first + span.count ≤ length records.now }
    ensures { IfOk result (λ lists. lists ≡ part_of span records.now) }
{
    let _ = records.len();
    let mut lists = WordLists::new(alloc);
    for index in 0..span.count {
        let words = records.list(span.first + index);
        lists.push(Words::from_slice(alloc, words)?)?;
    }
    Ok(lists)
}

/// The grant of a row, with its records.
fn grant_of_row(alloc: Global, records: &Block, row: Row) -> Result<Grant, AllocError>
    requires { row.span.first + row.span.count ≤ length records.now }
    ensures { IfOk result (λ grant. grant ≡ row_grant row (part_of row.span records.now)) }
{
    Ok(Grant {
        handle: row.handle,
        lane: row.lane,
        output: row.output,
        element: row.element,
        complete: row.complete,
        items: records_of(alloc, records, row.span)?,
    })
}

/// The grants of rows.
pub fn all_grants(alloc: Global, rows: &[Row], records: &Block) -> Result<Items<Grant>, AllocError>
    requires { LieFrom 0 (spans_of rows.now) (length records.now) }
    ensures { IfOk result (λ list. list ≡ grants_of rows.now records.now) }
{
    let mut list = Items::new(alloc);
    for row in rows {
        list.push(grant_of_row(alloc, records, *row)?)?;
    }
    Ok(list)
}
