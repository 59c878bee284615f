ghost use Rattle.std.specs.Prelude.{◌≡◌, ◌≢◌, ◌<◌, ◌≤◌, ◌^◌, ◌++◌, ◌∷◌, ◌↔◌, [], length, map, slice_index, IsTrue, IfOk, None, Some};
ghost use Rattle.std.specs.Option.{option_map};
ghost use Rattle.wg_words.specs.Each.{Each};
ghost use Rattle.wg_machine.specs.Grids.{groups_in, place_of};
ghost use Rattle.wg_machine.specs.LaunchMeaning.{Arrives};
ghost use Rattle.wg_machine.specs.Units.{words_at};
ghost use Rattle.wg_store.specs.declared.item.Item.{Item as ItemOf};
ghost use Rattle.wg_store.specs.Items.{AreAtPlaces, AreIn, all_opened, all_worded, born_items, first_of, grid_in, has_groups, item_in, launch_by, record_in, with_words, words_in};
ghost use Rattle.wg_hold.specs.Held.{count_of};
ghost use Rattle.wg_kept.specs.Moves.{CanPut, CanSettle, FitsWords, HasFewGroups, ItemsBecome, SettlesTo};
ghost use Rattle.wg_kept.specs.Stores.{AreBehind, IsFrontOf, records_in};

use std::alloc::{AllocError, Global};
use wg_entries::EntryCursor;
use wg_hold::Hold;
use wg_keep::Opening;
use wg_machine::{Launch, Record, Records, Sent, SentList, Shape, count_groups, linear_place};
use wg_standing::Pending;
use wg_words::{Word, Words};

/// The records of a core that are not consumed: the entries, and those in slots.
#[derive(Drop)]
pub struct Store {
    pub entries: EntryCursor,
    pub hold: Hold,
}

impl Store {
    // The words of the record of a number.
    fn words(&self, number: u64) -> &[Word]
        requires places { AreAtPlaces 0 self.now.entries }
        requires there { item_in number (records_in self.now) ≢ None }
        ensures { result.now ≡ words_in (records_in self.now) number }
    {
        if number < self.entries.len() {
            return self.entries.words(number);
        }
        self.hold.words(number)
    }

    // The groups of the record of a number.
    fn opening(&self, number: u64) -> Opening
        requires places { AreAtPlaces 0 self.now.entries }
        requires there { item_in number (records_in self.now) ≢ None }
        ensures { option_map (λ (x : ItemOf). x.opening) (item_in number (records_in self.now)) ≡ Some result }
    {
        if number < self.entries.len() {
            return self.entries.opening(number);
        }
        self.hold.opening(number)
    }

    /// The launch of a launch out, with the words, the grid and the `last` of now.
    pub fn launch(&self, alloc: Global, pending: &Pending) -> Result<Launch, AllocError>
        requires places { AreAtPlaces 0 self.now.entries }
        requires there { AreIn pending.now.inputs (records_in self.now) }
        requires some { 1 ≤ length pending.now.inputs }
        requires group { place_of (grid_in (records_in self.now) (first_of pending.now.inputs)) pending.now.at < 2 ^ 32 }
        ensures { IfOk result (λ launch. launch ≡ launch_by self.now.hold.shape (records_in self.now) pending.now) }
    {
        let inputs = pending.inputs.as_slice();
        let records = self.copies(alloc, inputs)?;
        let opening = self.opening(inputs[0]);
        Ok(Launch {
            unit: pending.unit,
            records,
            group: linear_place(&opening.grid, &pending.at),
            grid: opening.grid,
            last: self.hold.shape().is_shared(pending.unit) & (opening.left == 1),
        })
    }

    // Copies of the records of these numbers.
    fn copies(&self, alloc: Global, inputs: &[u64]) -> Result<Records, AllocError>
        requires places { AreAtPlaces 0 self.now.entries }
        requires there { AreIn inputs.now (records_in self.now) }
        ensures { IfOk result (λ records. records ≡ map (record_in (records_in self.now)) inputs.now) }
    {
        let mut records = Records::new(alloc);
        for number in inputs {
            records.push(Record {
                number: *number,
                words: Words::from_slice(alloc, self.words(*number))?,
            })?;
        }
        Ok(records)
    }

    /// Whether a launch is that of a launch out, with the words, the grid and the `last` of now. It takes no memory.
    pub fn is_launch(&self, pending: &Pending, launch: &Launch) -> bool
        requires places { AreAtPlaces 0 self.now.entries }
        requires there { AreIn pending.now.inputs (records_in self.now) }
        requires some { 1 ≤ length pending.now.inputs }
        requires group { place_of (grid_in (records_in self.now) (first_of pending.now.inputs)) pending.now.at < 2 ^ 32 }
        ensures { IsTrue result ↔ (launch.now ≡ launch_by self.now.hold.shape (records_in self.now) pending.now) }
    {
        let inputs = pending.inputs.as_slice();
        let opening = self.opening(inputs[0]);
        let last = self.hold.shape().is_shared(pending.unit) & (opening.left == 1);
        (launch.unit == pending.unit)
            & (launch.group == linear_place(&opening.grid, &pending.at))
            & (launch.grid == opening.grid)
            & (launch.last == last)
            & self.are_records(inputs, launch.records.as_slice())
    }

    // Whether these are the records of these numbers.
    fn are_records(&self, inputs: &[u64], records: &[Record]) -> bool
        requires places { AreAtPlaces 0 self.now.entries }
        requires there { AreIn inputs.now (records_in self.now) }
        ensures { IsTrue result ↔ (records.now ≡ map (record_in (records_in self.now)) inputs.now) }
    {
        if records.len() != inputs.len() {
            return false;
        }
        for place in 0..inputs.len() {
            if !is_record(&records[place], inputs[place], self.words(inputs[place])) {
                return false;
            }
        }
        true
    }

    /// Opens the launch that takes from the front of the records that wait.
    pub fn open(&mut self, pending: &Pending)
        requires places { AreAtPlaces 0 self.old.entries }
        requires behind { AreBehind self.old }
        requires some { 1 ≤ length pending.now.inputs }
        requires front { IsFrontOf self.old.hold.shape self.old.entries self.old.hold.items pending.now }
        ensures entries { self.new.entries ≡ all_opened pending.now.inputs self.old.entries }
        ensures hold { self.new.hold ≡ record self.old.hold { items = all_opened pending.now.inputs self.old.hold.items } }
    {
        if pending.inputs.as_slice()[0] < self.entries.len() {
            self.entries.open(pending);
        } else {
            self.hold.open(pending);
        }
    }

    /// Makes what a launch of these records leaves of them, and puts what it sent.
    pub fn settle(
        &mut self,
        unit: u32,
        inputs: &[u64],
        shared: Option<Words>,
        next: u64,
        sent: SentList,
    )
        requires { CanSettle self.old unit inputs.now shared next sent }
        ensures { SettlesTo self.old self.new unit inputs.now shared next sent }
    {
        self.write(inputs, shared);
        self.entries.count(inputs);
        self.hold.count(inputs);
        put_all(&mut self.hold, next, sent);
        self.hold.give_back(unit);
    }

    // Gives the record that is shared its new words, if there are some.
    fn write(&mut self, inputs: &[u64], shared: Option<Words>)
        requires places { AreAtPlaces 0 self.old.entries }
        requires behind { AreBehind self.old }
        requires there { AreIn inputs.now (records_in self.old) }
        requires words { FitsWords self.old inputs.now shared }
        ensures entries { self.new.entries ≡ all_worded inputs.now shared self.old.entries }
        ensures hold { self.new.hold ≡ record self.old.hold { items = all_worded inputs.now shared self.old.hold.items } }
    {
        let Some(words) = shared else {
            return;
        };
        self.rewrite(inputs[0], words);
    }

    // Gives the record of a number other words.
    fn rewrite(&mut self, number: u64, words: Words)
        requires places { AreAtPlaces 0 self.old.entries }
        requires behind { AreBehind self.old }
        requires there { item_in number (records_in self.old) ≢ None }
        requires words { Each (λ (x : ItemOf). x.number ≡ number → length words ≡ words_at self.old.hold.shape x.unit) (records_in self.old) }
        ensures entries { self.new.entries ≡ with_words number words self.old.entries }
        ensures hold { self.new.hold ≡ record self.old.hold { items = with_words number words self.old.hold.items } }
    {
        if number < self.entries.len() {
            self.entries.rewrite(number, words);
        } else {
            self.hold.rewrite(number, words);
        }
    }
}

// Whether a record is that of a number, with these words.
fn is_record(given: &Record, number: u64, words: &[Word]) -> bool
    ensures { IsTrue result ↔ ((given.now.number ≡ number) × (given.now.words ≡ words.now)) }
{
    (given.number == number) & (given.words.as_slice() == words)
}

// Puts the records that a launch sent into slots, numbered on from a number. One without a group gets its number and is none.
fn put_all(hold: &mut Hold, next: u64, sent: SentList)
    requires { CanPut hold.old next sent }
    ensures { ItemsBecome hold.old hold.new (hold.old.items ++ born_items hold.old.shape next sent) }
{
    let mut number = next;
    for record in sent.into_vec() {
        put(hold, number, record);
        number += 1;
    }
}

// Puts a record into a slot, if it has a group.
fn put(hold: &mut Hold, number: u64, sent: Sent)
    requires above { Each (λ (x : ItemOf). x.number < number) hold.old.items }
    requires arrives { Arrives hold.old.shape sent }
    requires few { HasFewGroups hold.old.shape sent }
    requires free { count_of sent.unit hold.old.items < slice_index hold.old.room.bounds sent.unit }
    ensures { ItemsBecome hold.old hold.new (hold.old.items ++ born_items hold.old.shape number (sent ∷ [])) }
{
    hold.keeps_laws();
    if !has_group(hold.shape(), &sent) {
        return;
    }
    hold.put(number, sent);
}

// Whether a record has a group.
fn has_group(shape: &Shape, sent: &Sent) -> bool
    ensures { result ≡ has_groups shape.now sent.now }
{
    let grid = shape.kind(sent.unit).grid(sent.words.as_slice());
    count_groups(&grid) > 0
}
