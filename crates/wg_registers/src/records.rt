ghost use Rattle.std.specs.Prelude.{◌≡◌, ◌+◌, ◌-◌, List, ℕ, Some, None, if◌then◌else◌, nat_lt};
ghost use Rattle.wg_state.specs.WordLists.{list_at};
ghost use Rattle.wg_code.specs.Records.{items_at, grants_with};
ghost use Rattle.wg_code.specs.Lane.{ranged, with_ranged};

use crate::sharing::Sharing;
use wg_grants::GrantTable;
use wg_words::Word;

/// A word of a new record: of a range of its words, by an index.
#[derive(Clone, Copy, Debug, PartialEq, Eq)]
pub struct RecordSpot {
    pub record: u32,
    pub from: u32,
    pub to: u32,
    pub word: u32,
}

/// The place of a word in its record; none outside the range.
fn place_in(spot: RecordSpot) -> Option<u32>
    ensures { result ≡ (if nat_lt spot.word (spot.to - spot.from) then Some (spot.from + spot.word) else None) }
{
    if spot.from < spot.to && spot.word < spot.to - spot.from {
        Some(spot.from + spot.word)
    } else {
        None
    }
}

fn word_at_spot(grants: &GrantTable, grant: u64, spot: RecordSpot) -> Word
    ensures { result ≡ ranged (list_at (items_at (Some grant) grants.now) spot.record) spot.from spot.to spot.word }
{
    match place_in(spot) {
        Some(at) => grants.word(grant, spot.record, at),
        None => 0,
    }
}

/// A word of a record of a grant; 0 where there is none, or its handle is closed.
pub fn record_word(world: &Sharing, grant: Option<u64>, spot: RecordSpot) -> Word
    ensures { result ≡ ranged (list_at (items_at grant world.now.grants) spot.record) spot.from spot.to spot.word }
{
    match grant {
        None => 0,
        Some(grant) => word_at_spot(&world.grants, grant, spot),
    }
}

fn put_at_spot(grants: &mut GrantTable, grant: u64, spot: RecordSpot, value: Word)
    ensures { grants.new ≡ grants_with (Some grant) spot.record (λ (words : List ℕ). with_ranged words spot.from spot.to spot.word value) grants.old }
{
    match place_in(spot) {
        Some(at) => grants.put(grant, spot.record, at, value),
        None => (),
    }
}

/// Sets a word of a record of a grant; where there is none, or its handle is closed, nothing is.
pub fn put_record(world: &mut Sharing, grant: Option<u64>, spot: RecordSpot, value: Word)
    ensures { world.new ≡ record world.old { grants = grants_with grant spot.record (λ (words : List ℕ). with_ranged words spot.from spot.to spot.word value) world.old.grants } }
{
    match grant {
        None => (),
        Some(grant) => put_at_spot(&mut world.grants, grant, spot, value),
    }
}
