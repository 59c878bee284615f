ghost use Rattle.std.specs.Prelude.{◌≡◌, ℕ, ◌+◌, ◌*◌, ◌/◌, IfOk, slice_get, slice_set, if◌then◌else◌, Some, None};
ghost use Rattle.wg_typed.specs.Layout.{words_in, words_of};
ghost use Rattle.wg_semantics.specs.Places.{words_from, over_written, items_in, with_item, stored, fetched, written, part_at, element_at, buffer_element, input_record, granted_record, as_read, owner, grant_of, handle_record};
ghost use Rattle.wg_state.specs.Requests.{latest, is_numbered};
ghost use Rattle.wg_state.specs.WordLists.{list_at};
ghost use Rattle.wg_state.specs.Turns.{Done};
ghost use Rattle.wg_semantics.specs.ExprMeaning.{components_of};
ghost use Rattle.wg_semantics.specs.declared.state.Spot.TheVariants as spot;
ghost use Rattle.wg_values.specs.Pieces.{range_of, setting_of};

use crate::extents::Piece;
use crate::structs::Structs;
use crate::words::{cut, pick, write_over, zero_words};
use std::alloc::{AllocError, Global};
use std::mem;
use wg_machine::Output;
use wg_semantics::{Spot, State, Store};
use wg_state::Grant;
use wg_typed::{TypeTree, TypedFunction, TypedHandle};
use wg_words::{Items, Word, WordLists, Words};

/// What stays the same while a lane runs a function: the functions before it are those that it may call.
#[derive(Clone, Copy)]
pub struct Setting<'a> {
    pub alloc: Global,
    pub structs: &'a Structs<'a>,
    pub handles: &'a [TypedHandle],
    pub outputs: &'a [Output],
    pub level: u32,
    pub last: bool,
    pub lane: u32,
    pub earlier: &'a [TypedFunction],
}

fn list(lists: &WordLists, at: u32) -> &[Word]
    ensures { result.now ≡ list_at lists.now at }
{
    match lists.get(at as usize) {
        Some(words) => words.as_slice(),
        None => &[],
    }
}

fn granted(grants: &Items<Grant>, grant: u64, item: u32) -> &[Word]
    ensures { result.now ≡ list_at (items_in (slice_get grants.now grant)) item }
{
    match grants.get(grant as usize) {
        Some(g) => list(&g.items, item),
        None => &[],
    }
}

/// The words of a store.
fn stored_words(store: Store, state: &State) -> &[Word]
    ensures { result.now ≡ stored store state.now }
{
    match store {
        Store::Variable { variable } => list(&state.variables, variable),
        Store::Shared { variable } => list(&state.world.shared, variable),
        Store::Buffer { buffer } => list(&state.world.buffers, buffer),
        Store::Input { record } => list(&state.world.inputs, record),
        Store::Granted { grant, item } => granted(&state.world.grants, grant, item),
    }
}

#[tactic(auto, using(crate::proofs::Lists::list_at_in, crate::proofs::Lists::set_past))]
fn write_in(alloc: Global, lists: &mut Vec<Words>, at: u32, from: u64, values: &[Word])
    ensures { lists.new.items ≡ slice_set lists.old.items at (over_written (list_at lists.old.items at) from values.now) }
{
    if (at as usize) < lists.len() {
        let place = &mut lists[at as usize];
        let words = mem::replace(place, Words::new(alloc));
        *place = write_over(words, from, values);
    }
}

/// Writes over the words of one list, if there is one.
fn write_list(alloc: Global, lists: WordLists, at: u32, from: u64, values: &[Word]) -> WordLists
    ensures { result ≡ slice_set lists at (over_written (list_at lists at) from values.now) }
{
    let mut lists = lists.into_vec();
    write_in(alloc, &mut lists, at, from, values);
    WordLists::from_vec(lists)
}

#[tactic(auto, using(crate::proofs::Lists::with_item_at, crate::proofs::Lists::with_item_past))]
fn write_item(
    alloc: Global,
    grants: &mut Vec<Grant>,
    grant: u64,
    item: u32,
    from: u64,
    values: &[Word],
)
    ensures { grants.new.items ≡ with_item grants.old.items grant item (over_written (list_at (items_in (slice_get grants.old.items grant)) item) from values.now) }
{
    if grant < grants.len() as u64 {
        let place = &mut grants[grant as usize];
        let items = mem::replace(&mut place.items, WordLists::new(alloc));
        place.items = write_list(alloc, items, item, from, values);
    }
}

fn write_grant(
    alloc: Global,
    grants: Items<Grant>,
    grant: u64,
    item: u32,
    from: u64,
    values: &[Word],
) -> Items<Grant>
    ensures { result ≡ with_item grants grant item (over_written (list_at (items_in (slice_get grants grant)) item) from values.now) }
{
    let mut grants = grants.into_vec();
    write_item(alloc, &mut grants, grant, item, from, values);
    Items::from_vec(grants)
}

fn write_store(alloc: Global, store: Store, from: u64, values: &[Word], state: &mut State)
    ensures { state.new ≡ written (spot.At store from) values.now state.old }
{
    match store {
        Store::Variable { variable } => {
            let lists = mem::replace(&mut state.variables, WordLists::new(alloc));
            state.variables = write_list(alloc, lists, variable, from, values);
        }
        Store::Shared { variable } => {
            let lists = mem::replace(&mut state.world.shared, WordLists::new(alloc));
            state.world.shared = write_list(alloc, lists, variable, from, values);
        }
        Store::Buffer { buffer } => {
            let lists = mem::replace(&mut state.world.buffers, WordLists::new(alloc));
            state.world.buffers = write_list(alloc, lists, buffer, from, values);
        }
        Store::Input { record } => {
            let lists = mem::replace(&mut state.world.inputs, WordLists::new(alloc));
            state.world.inputs = write_list(alloc, lists, record, from, values);
        }
        Store::Granted { grant, item } => {
            let grants = mem::replace(&mut state.world.grants, Items::new(alloc));
            state.world.grants = write_grant(alloc, grants, grant, item, from, values);
        }
    }
}

/// Writes words where they stand; outside nothing is written.
pub fn write(alloc: Global, at: &Spot, values: &[Word], state: &mut State)
    ensures { state.new ≡ written at.now values.now state.old }
{
    match at {
        Spot::At { store, from } => write_store(alloc, *store, *from, values, state),
        Spot::Value { .. } | Spot::Nowhere => (),
    }
}

fn read_words(
    setting: &Setting<'_>,
    t: TypeTree,
    store: Store,
    words: Words,
) -> Result<Words, AllocError>
    ensures { IfOk result (λ list. list ≡ as_read store setting.now.structs.now t words) }
{
    match store {
        Store::Buffer { .. } | Store::Input { .. } => {
            setting.structs.read(setting.alloc, t, words.as_slice())
        }
        Store::Variable { .. } | Store::Shared { .. } | Store::Granted { .. } => Ok(words),
    }
}

fn fetch_at(
    setting: &Setting<'_>,
    t: TypeTree,
    store: Store,
    from: u64,
    state: &State,
) -> Result<Words, AllocError>
    ensures { IfOk result (λ list. list ≡ fetched setting.now.structs.now t (spot.At store from) state.now) }
{
    let count = setting.structs.words(t)?;
    let words = cut(setting.alloc, stored_words(store, state), from, count)?;
    read_words(setting, t, store, words)
}

/// The words of a value of the type that an expression gave.
pub fn fetch(
    setting: &Setting<'_>,
    t: TypeTree,
    at: &Spot,
    state: &State,
) -> Result<Words, AllocError>
    ensures { IfOk result (λ list. list ≡ fetched setting.now.structs.now t at.now state.now) }
{
    match at {
        Spot::Value { words } => Words::from_slice(setting.alloc, words.as_slice()),
        Spot::At { store, from } => fetch_at(setting, t, *store, *from, state),
        Spot::Nowhere => {
            let count = setting.structs.words(t)?;
            zero_words(setting.alloc, count)
        }
    }
}

fn piece_at(piece: Piece, store: Store, from: u64) -> Result<Spot, AllocError>
    ensures { IfOk result (λ p. p ≡ part_at (range_of piece) (spot.At store from)) }
{
    match from.checked_add(piece.from) {
        Some(from) => Ok(Spot::At { store, from }),
        None => Err(AllocError),
    }
}

/// So many words behind others, as far as there are.
fn words_within(alloc: Global, piece: Piece, words: &[Word]) -> Result<Words, AllocError>
    ensures { IfOk result (λ list. list ≡ words_in (range_of piece) words.now) }
{
    let length = words.len() as u64;
    let from = piece.from.min(length);
    let count = piece.to.saturating_sub(piece.from).min(length - from);
    Words::from_slice(alloc, &words[from as usize..(from + count) as usize])
}

/// The part of a value that stands in a piece of its words.
pub fn part(alloc: Global, piece: Piece, at: Spot) -> Result<Spot, AllocError>
    ensures { IfOk result (λ p. p ≡ part_at (range_of piece) at) }
{
    match at {
        Spot::At { store, from } => piece_at(piece, store, from),
        Spot::Nowhere => Ok(Spot::Nowhere),
        Spot::Value { words } => {
            let words = words_within(alloc, piece, words.as_slice())?;
            Ok(Spot::Value { words })
        }
    }
}

/// Components of a vector, by number: of one its place, of several their words.
#[tactic(auto, using(crate::proofs::Lists::one_component, crate::proofs::Lists::several_components))]
pub fn components(
    setting: &Setting<'_>,
    numbers: &Words,
    t: TypeTree,
    at: Spot,
    state: &State,
) -> Result<Spot, AllocError>
    ensures { IfOk result (λ p. (turns : ℕ) → components_of (setting_of setting.now) numbers.now t at state.now turns ≡ Done p state.now turns) }
{
    let numbers = numbers.as_slice();
    if numbers.len() == 1 {
        let from = u64::from(numbers[0]);
        part(setting.alloc, Piece { from, to: from + 1 }, at)
    } else {
        let words = fetch(setting, t, &at, state)?;
        let words = pick(setting.alloc, words.as_slice(), numbers)?;
        Ok(Spot::Value { words })
    }
}

/// Where an element stands, if its words can be counted.
fn element_piece(words: u64, at: Word) -> Result<Piece, AllocError>
    ensures { IfOk result (λ p. (p.from ≡ at * words) × (p.to ≡ (at + 1) * words)) }
{
    let Some(from) = u64::from(at).checked_mul(words) else {
        return Err(AllocError);
    };
    let Some(to) = (u64::from(at) + 1).checked_mul(words) else {
        return Err(AllocError);
    };
    Ok(Piece { from, to })
}

/// An element of an array of so many, each of so many words.
pub fn element(
    alloc: Global,
    count: u32,
    words: u64,
    at: Word,
    of: Spot,
) -> Result<Spot, AllocError>
    ensures { IfOk result (λ p. p ≡ element_at count words at of) }
{
    if at >= count {
        return Ok(Spot::Nowhere);
    }
    match element_piece(words, at) {
        Ok(piece) => part(alloc, piece, of),
        Err(e) => Err(e),
    }
}

/// An element of a structured buffer, each of so many words.
pub fn buffer_place(buffer: u32, words: u64, at: Word, state: &State) -> Result<Spot, AllocError>
    ensures { IfOk result (λ p. p ≡ buffer_element buffer words at state.now) }
{
    let piece = match element_piece(words, at) {
        Ok(piece) => piece,
        Err(e) => return Err(e),
    };
    if piece.to <= list(&state.world.buffers, buffer).len() as u64 {
        Ok(Spot::At {
            store: Store::Buffer { buffer },
            from: piece.from,
        })
    } else {
        Ok(Spot::Nowhere)
    }
}

/// A record of the input.
pub fn input_place(at: Word, state: &State) -> Spot
    ensures { result ≡ input_record at state.now }
{
    if (at as usize) < state.world.inputs.len() {
        Spot::At {
            store: Store::Input { record: at },
            from: 0,
        }
    } else {
        Spot::Nowhere
    }
}

fn owner_lane(setting: &Setting<'_>, handle: u32) -> u32
    ensures { result ≡ owner (setting_of setting.now) handle }
{
    match setting.handles.get(handle as usize) {
        Some(h) => group_lane(h.group, setting.lane),
        None => setting.lane,
    }
}

fn group_lane(group: bool, lane: u32) -> u32
    ensures { result ≡ if group then 0 else lane }
{
    if group { 0 } else { lane }
}

fn names(handle: Option<u32>, wanted: u32) -> bool
    ensures { result ≡ is_numbered handle wanted }
{
    match handle {
        Some(handle) => handle == wanted,
        None => false,
    }
}

fn later(is_of: bool, at: u64, found: Option<u64>) -> Option<u64>
    ensures { result ≡ if is_of then Some at else found }
{
    if is_of { Some(at) } else { found }
}

fn latest_grant(grants: &[Grant], handle: u32, lane: u32) -> Option<u64>
    ensures { result ≡ latest handle lane 0 None grants.now }
{
    let mut found = None;
    for at in 0..grants.len() {
        let g = &grants[at];
        found = later(names(g.handle, handle) && g.lane == lane, at as u64, found);
    }
    found
}

/// The grant of a handle of the lane, by its number.
pub fn grant(setting: &Setting<'_>, handle: u32, state: &State) -> Option<u64>
    ensures { result ≡ grant_of (setting_of setting.now) handle state.now }
{
    latest_grant(
        state.world.grants.as_slice(),
        handle,
        owner_lane(setting, handle),
    )
}

fn granted_place(grant: u64, at: Word, state: &State) -> Spot
    ensures { result ≡ granted_record grant at (slice_get state.now.world.grants grant) }
{
    match state.world.grants.get(grant as usize) {
        None => Spot::Nowhere,
        Some(g) => {
            if g.complete {
                Spot::Nowhere
            } else if (at as usize) < g.items.len() {
                Spot::At {
                    store: Store::Granted { grant, item: at },
                    from: 0,
                }
            } else {
                Spot::Nowhere
            }
        }
    }
}

/// A record of a handle.
pub fn handle_place(setting: &Setting<'_>, handle: u32, at: Word, state: &State) -> Spot
    ensures { result ≡ handle_record (setting_of setting.now) handle at state.now }
{
    match grant(setting, handle, state) {
        Some(grant) => granted_place(grant, at, state),
        None => Spot::Nowhere,
    }
}

/// The words of a raw buffer from an address in bytes on, as many as the type has.
pub fn raw_words(
    setting: &Setting<'_>,
    t: TypeTree,
    buffer: u32,
    address: Word,
    state: &State,
) -> Result<Words, AllocError>
    ensures { IfOk result (λ words. words ≡ words_from (list_at state.now.world.buffers buffer) (address / 4) (words_of setting.now.structs.now t)) }
{
    let count = setting.structs.words(t)?;
    cut(
        setting.alloc,
        list(&state.world.buffers, buffer),
        u64::from(address / 4),
        count,
    )
}
