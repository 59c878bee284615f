ghost use Rattle.std.specs.Prelude.{◌≡◌, ◌++◌, ◌∷◌, [], List, ℕ, None, Some, IfOk, OnOk, OnErr, slice_get, slice_index, slice_set};
ghost use Rattle.wg_code.specs.Records.{items_at, grants_with};
ghost use Rattle.wg_state.specs.Requests.{latest, closed_in};
ghost use Rattle.wg_state.specs.WordLists.{list_at};
ghost use Rattle.wg_grants.specs.Rows.{granted};

use crate::lists::Block;
use crate::rows::{
    LaneHandle, Latest, Row, add_copies, add_row, add_zeros, all_grants, put_in, word_in,
};
use crate::spans::Span;
use std::alloc::{AllocError, Global};
use std::marker::Model;
use wg_state::{Grant, Request};
use wg_words::{Items, Word};

/// The grants of a launch, in the order of their requests.
///
/// The words of all new records lie in one block. The latest grant of a handle on a lane, and a word of a record, are found
/// in no more time where there are many.
#[derive(Drop)]
pub struct GrantTable {
    rows: Vec<Row>,
    records: Block,
    latest: Latest,
}

impl Model for GrantTable {
    ghost use Rattle.std.specs.Prelude.{List};
    ghost use Rattle.wg_state.specs.declared.world.Grant.{Grant};
    ghost use Rattle.wg_grants.specs.Rows.{grants_of, IsKept};

    ghost Value = { List Grant };

    ghost view = { λ t. grants_of t.rows.items t.records };

    ghost invariant = { λ t. IsKept t.rows.items t.records t.latest.entries };
}

impl GrantTable {
    ghost use Rattle.std.specs.Prelude.{◌≡◌, ◌++◌, ◌∷◌, [], List, ℕ, None, Some, IfOk, OnOk, OnErr, slice_get, slice_index, slice_set};
    ghost use Rattle.wg_code.specs.Records.{items_at, grants_with};
    ghost use Rattle.wg_state.specs.Requests.{latest, closed_in};
    ghost use Rattle.wg_state.specs.WordLists.{list_at};
    ghost use Rattle.wg_grants.specs.Rows.{granted};

    pub fn new(alloc: Global) -> GrantTable
        ensures { result ≡ [] }
    {
        GrantTable {
            rows: Vec::new(alloc),
            records: Block::new(alloc),
            latest: Latest::new(alloc),
        }
    }

    /// One more grant: so many records of so many words, all 0.
    pub fn push(&mut self, request: Request, count: u32, words: u32) -> Result<(), AllocError>
        ensures ok { OnOk result (self.new ≡ self.old ++ granted request count words ∷ []) }
        ensures err { OnErr result (self.new ≡ self.old) }
    {
        let first = self.records.len();
        add_zeros(&mut self.records, count, words)?;
        let row = Row {
            handle: request.handle,
            lane: request.lane,
            output: request.output,
            element: request.element,
            complete: false,
            span: Span {
                first,
                count: count as usize,
            },
        };
        add_row(&mut self.rows, &mut self.latest, row)?;
        Ok(())
    }

    /// One more grant, equal to this one.
    pub fn push_copy(&mut self, grant: &Grant) -> Result<(), AllocError>
        ensures ok { OnOk result (self.new ≡ self.old ++ grant.now ∷ []) }
        ensures err { OnErr result (self.new ≡ self.old) }
    {
        let first = self.records.len();
        let items = grant.items.as_slice();
        let count = items.len();
        add_copies(&mut self.records, items)?;
        let row = Row {
            handle: grant.handle,
            lane: grant.lane,
            output: grant.output,
            element: grant.element,
            complete: grant.complete,
            span: Span { first, count },
        };
        add_row(&mut self.rows, &mut self.latest, row)?;
        Ok(())
    }

    /// The place of the latest grant of a handle on a lane, by its number.
    pub fn find(&self, handle: u32, lane: u32) -> Option<u64>
        ensures { result ≡ latest handle lane 0 None self.now }
    {
        self.latest.get(&LaneHandle { handle, lane }).copied()
    }

    /// A word of a record of a grant; 0 where there is none, or the grant is closed.
    pub fn word(&self, grant: u64, index: u32, at: u32) -> Word
        ensures { result ≡ slice_index (list_at (items_at (Some grant) self.now) index) at }
    {
        word_in(&self.rows, &self.records, grant, index, at)
    }

    /// Sets a word of a record of a grant; where there is none, or the grant is closed, nothing is.
    pub fn put(&mut self, grant: u64, index: u32, at: u32, value: Word)
        ensures { self.new ≡ grants_with (Some grant) index (λ (words : List ℕ). slice_set words at value) self.old }
    {
        put_in(&self.rows, &mut self.records, grant, index, at, value);
    }

    /// Closes a grant: its records are read and written no more.
    pub fn close(&mut self, grant: u64)
        ensures { self.new ≡ closed_in (slice_get self.old grant) self.old grant }
    {
        if grant < self.rows.as_slice().len() as u64 {
            let row = &mut self.rows[grant as usize];
            row.complete = true;
        }
    }

    /// The grants as a list.
    pub fn to_items(&self, alloc: Global) -> Result<Items<Grant>, AllocError>
        ensures { IfOk result (λ list. list ≡ self.now) }
    {
        all_grants(alloc, &self.rows, &self.records)
    }
}

/// The table of a list of grants.
pub fn table_of(alloc: Global, grants: &[Grant]) -> Result<GrantTable, AllocError>
    ensures { IfOk result (λ table. table ≡ grants.now) }
{
    let mut table = GrantTable::new(alloc);
    for grant in grants {
        table.push_copy(grant)?;
    }
    Ok(table)
}
