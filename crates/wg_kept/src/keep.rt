ghost use Rattle.std.specs.Prelude.{◌≡◌, ◌≢◌, ℕ, ◌*◌, ◌+◌, ◌<◌, ◌≤◌, [], length, slice_index, IfOk, IfNone, IfSome, OnErr, OnOk};
ghost use Rattle.std.specs.Option.{ForSome};
ghost use Rattle.wg_words.specs.Each.{Each};
ghost use Rattle.wg_words.specs.declared.limits.TheConstants.{MOST_ENTRIES, MOST_LAUNCHES};
ghost use Rattle.wg_machine.specs.Bytes.{plan_bytes};
ghost use Rattle.wg_machine.specs.GoodShape.{IsGoodShape};
ghost use Rattle.wg_machine.specs.LaunchMeaning.{Arrives};
ghost use Rattle.wg_machine.specs.Need.{most};
ghost use Rattle.wg_standing.specs.Choice.{IsChoice, NoChoice};
ghost use Rattle.wg_standing.specs.Core.{core_begun};
ghost use Rattle.wg_standing.specs.Moves.{with_out};
ghost use Rattle.wg_engine.specs.Calls.{SomeChoice, told};
ghost use Rattle.wg_engine.specs.Inside.{IsBegun};
ghost use Rattle.wg_store.specs.Keep.{view_of};
ghost use Rattle.wg_kept.specs.Moves.{line_of};
ghost use Rattle.wg_kept.specs.Stores.{IsFrontOf};

use crate::store::Store;
use std::alloc::{AllocError, Global};
use std::marker::Model;
use wg_engine::{Keeping, Out};
use wg_entries::EntryCursor;
use wg_hold::Hold;
use wg_keep::groups_are_counted;
use wg_machine::{
    Entries, Entry, EntryList, Launch, Limits, Made, Shape, few_are_sent, needs_are_kept,
};
use wg_plan::Plan;
use wg_standing::{
    Pending, choices_can_open, only_units_are_needed, openings_place, outs_fit, settlings_place,
};
use wg_store::{
    allowed_are_told, beginnings_are_seen, beginnings_keep, beginnings_keep_room, bests_are_chosen,
    else_nothing_is_chosen, entries_are_chosen, openings_are_seen, openings_keep,
    openings_keep_room, settlings_are_seen, settlings_keep,
};
use wg_tickets::Tickets;

/// What a core keeps between its calls: the records that are not consumed, the launches out, and the journal.
#[derive(Drop)]
pub struct Keep {
    alloc: Global,
    store: Store,
    outs: Tickets<Pending>,
    journal: Vec<Entry>,
    width: u32,
    planned: u64,
    limits: Limits,
    next: u64,
    tickets: u64,
}

impl Model for Keep {
    ghost use Rattle.wg_store.specs.Keep.{Kept};

    ghost Value = { Kept };

    ghost use Rattle.std.specs.Prelude.{vec_capacity};
    ghost use Rattle.wg_kept.specs.Inside.{IsSoundKeep, kept_of};

    ghost view = { λ k. kept_of k.store k.width k.limits k.journal.items k.next k.outs k.tickets };

    ghost invariant = { λ k. IsSoundKeep (kept_of k.store k.width k.limits k.journal.items k.next k.outs k.tickets) k.store k.outs (vec_capacity k.journal) k.planned };
}

impl Keep {
    /// A keep at the start of a script, with the slots of a plan.
    pub fn new(
        alloc: Global,
        shape: Shape,
        plan: Plan,
        entries: Entries,
        limits: Limits,
    ) -> Result<Keep, AllocError>
        requires good { IsGoodShape shape }
        requires wide { 1 ≤ plan.width }
        requires count { length plan.slots ≡ length shape.units }
        requires slots { (v : ℕ) → v < length plan.slots → slice_index plan.slots v ≡ plan.width * most shape v }
        requires bytes { plan.bytes ≡ plan_bytes shape plan.width }
        requires arrive { Each (Arrives shape) entries }
        requires few { length entries ≤ MOST_ENTRIES }
        requires launches { limits.launches ≤ MOST_LAUNCHES }
        ensures begun { IfOk result (λ keep. view_of keep ≡ core_begun shape plan.width limits entries []) }
        ensures is_begun { IfOk result (λ keep. IsBegun (view_of keep)) }
    {
        beginnings_are_seen();
        beginnings_keep();
        beginnings_keep_room();
        let next = entries.len() as u64;
        let entries = EntryCursor::new(alloc, &shape, entries)?;
        let hold = Hold::new(alloc, shape, plan.slots.as_slice())?;
        Ok(Keep {
            alloc,
            store: Store { entries, hold },
            outs: Tickets::new(alloc),
            journal: Vec::new(alloc),
            width: plan.width,
            planned: plan.bytes,
            limits,
            next,
            tickets: 0,
        })
    }

    // The launch to open next, if there is one.
    fn choice(&self) -> Result<Option<Pending>, AllocError>
        ensures none { IfOk result (λ chosen. IfNone chosen (NoChoice (view_of self.now))) }
        ensures some { IfOk result (λ chosen. IfSome chosen (IsChoice (view_of self.now))) }
        ensures front { IfOk result (λ chosen. IfSome chosen (IsFrontOf self.now.shape self.now.entries self.now.slots)) }
        ensures wants { OnErr result (SomeChoice (view_of self.now)) }
    {
        bests_are_chosen();
        entries_are_chosen();
        else_nothing_is_chosen();
        if let Some(unit) = self.store.hold.best() {
            let pending = self.store.hold.front(self.alloc, unit, self.tickets)?;
            return Ok(Some(pending));
        }
        let Some(unit) = self.store.entries.first_unit() else {
            return Ok(None);
        };
        if !self.store.hold.has_room(unit) {
            return Ok(None);
        }
        let shape = self.store.hold.shape();
        let pending = self.store.entries.front(self.alloc, shape, self.tickets)?;
        Ok(Some(pending))
    }

    // Opens the launch to open next, with a place in the journal for it. `Err` changes nothing.
    fn take(&mut self, pending: Pending) -> Result<Out, AllocError>
        requires choice { IsChoice (view_of self.old) pending }
        requires front { IsFrontOf self.old.shape self.old.entries self.old.slots pending }
        requires few { length self.old.journal + length self.old.outs < self.old.limits.launches }
        ensures out { IfOk result (λ out. out ≡ told (view_of self.old) pending) }
        ensures opened { OnOk result (view_of self.new ≡ with_out (view_of self.old) pending) }
        ensures same { OnErr result (self.new ≡ self.old) }
    {
        allowed_are_told();
        choices_can_open();
        only_units_are_needed();
        openings_are_seen();
        openings_keep();
        openings_keep_room();
        openings_place();
        outs_fit();
        let launch = self.store.launch(self.alloc, &pending)?;
        let more = self.outs.len() as usize + 1;
        self.journal.reserve(more)?;
        let (ticket, unit) = (self.tickets, pending.unit);
        self.outs.push(ticket, pending)?;
        self.store.open(self.outs.get(ticket));
        self.store.hold.reserve(unit);
        self.tickets = ticket + 1;
        Ok(Out { ticket, launch })
    }
}

impl Keeping for Keep {
    ghost seen = { view_of };

    fn shape(&self) -> &Shape {
        self.store.hold.shape()
    }

    fn limits(&self) -> &Limits {
        &self.limits
    }

    fn is_idle(&self) -> bool {
        groups_are_counted();
        self.store.hold.keeps_laws();
        if self.outs.len() > 0 {
            return false;
        }
        if !self.store.hold.is_empty() {
            return false;
        }
        self.store.entries.first_unit().is_none()
    }

    fn length(&self) -> u64 {
        self.journal.len() as u64
    }

    fn out_count(&self) -> u64 {
        self.outs.len()
    }

    fn first_out(&self) -> Option<u64> {
        self.outs.first()
    }

    fn next(&self) -> u64 {
        self.next
    }

    fn bytes(&self) -> u64 {
        self.store.hold.keeps_laws();
        self.store.hold.bytes()
    }

    fn planned(&self) -> u64 {
        self.planned
    }

    fn open(&mut self) -> Result<Option<Out>, AllocError> {
        let Some(pending) = self.choice()? else {
            return Ok(None);
        };
        Ok(Some(self.take(pending)?))
    }

    fn is_out(&self, ticket: u64) -> bool {
        self.outs.contains(ticket)
    }

    fn is_now(&self, ticket: u64, launch: &Launch) -> bool {
        allowed_are_told();
        outs_fit();
        self.store.is_launch(self.outs.get(ticket), launch)
    }

    fn launch(&self, ticket: u64) -> Result<Launch, AllocError> {
        allowed_are_told();
        outs_fit();
        self.store.launch(self.alloc, self.outs.get(ticket))
    }

    fn settle(&mut self, ticket: u64, made: Made) {
        allowed_are_told();
        few_are_sent();
        groups_are_counted();
        needs_are_kept();
        only_units_are_needed();
        outs_fit();
        settlings_place();
        settlings_are_seen();
        settlings_keep();
        self.store.hold.keeps_laws();
        let Made {
            sent,
            denied: _,
            turns: _,
            shared,
        } = made;
        let pending = self.outs.remove(ticket);
        let outs = sent.len() as u32;
        let next = self.next;
        self.store.settle(pending.unit, pending.inputs.as_slice(), shared, next, sent);
        self.store.hold.keeps_laws();
        self.journal.push_reserved(line(pending, next, outs));
        self.next = next + u64::from(outs);
    }

    fn into_journal(self) -> EntryList {
        let Keep {
            alloc: _,
            store: _,
            outs: _,
            journal,
            width: _,
            planned: _,
            limits: _,
            next: _,
            tickets: _,
        } = self;
        EntryList::from_vec(journal)
    }
}

// The entry that a launch leaves in the journal, which sent so many records.
fn line(pending: Pending, next: u64, outs: u32) -> Entry
    ensures { result ≡ line_of pending next outs }
{
    let Pending {
        ticket: _,
        unit,
        at,
        inputs,
    } = pending;
    Entry {
        unit,
        at,
        inputs,
        first_out: if outs == 0 { 0 } else { next },
        outs,
    }
}
