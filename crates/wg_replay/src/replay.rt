ghost use Rattle.std.specs.Prelude.{◌≡◌, ◌↔◌, ◌≤◌, ◌<◌, ◌^◌, ◌+◌, ◌*◌, ◌==◌, ℕ, max, length, IsTrue, IfOk, OnOk, IfErr, if◌then◌else◌};
ghost use Rattle.wg_words.specs.Each.{Each};
ghost use Rattle.wg_words.specs.declared.limits.TheConstants.{MOST_ENTRIES, MOST_SENT, MOST_STRIDE};
ghost use Rattle.wg_machine.specs.declared.launch.Launch.{Launch as Launched};
ghost use Rattle.wg_machine.specs.Buffers.{all_written};
ghost use Rattle.wg_machine.specs.GoodShape.{IsGoodShape};
ghost use Rattle.wg_machine.specs.LaunchMeaning.{Arrives, outcome_of};
ghost use Rattle.wg_machine.specs.State.{State, start as start_of};
ghost use Rattle.wg_machine.specs.Step.{state_after};
ghost use Rattle.wg_machine.specs.Units.{stride_at};
ghost use Rattle.wg_records.specs.Bags.{Keeps};
ghost use Rattle.wg_records.specs.Named.{IsNamed, NumbersRise};
ghost use Rattle.wg_replay.specs.Lines.{IsFault, IsNoStep, terms};
ghost use Rattle.wg_replay.specs.Steps.{PassesLine, TakesStep};
ghost use Rattle.wg_replay.specs.States.{IsAt};
ghost use Rattle.wg_replay.specs.declared.replay.LineFault.TheVariants.{Memory};

use crate::ran::{Ran, run_entry};
use std::alloc::{AllocError, Global};
use wg_buffers::Buffers;
use wg_machine::{
    Bodies, Entry, Limits, Made, Sent, Shape, Write, allowed_launches_fit, few_are_sent, runs_fit,
    steps_fit, strides_are_small,
};
use wg_records::LiveRecords;

/// Where a replay has come to: the live records and the buffers now, the requests that were denied, and the greatest
/// number of bytes that lived at any moment.
#[derive(Drop)]
pub struct Replay {
    pub records: LiveRecords,
    pub buffers: Buffers,
    pub denied: u64,
    pub peak: u64,
}

/// What is wrong with a launch line.
#[derive(Clone, Copy, Debug, PartialEq, Eq)]
pub enum LineFault {
    /// It is past the launches of a run, the bag has no such launch, or it has other numbers than the step gives.
    Wrong,
    /// Its launch spends its turns.
    TurnsSpent,
    /// More bytes than the plan's live after it.
    OverBytes,
    Memory,
}

impl From<AllocError> for LineFault {
    ghost from_gives = { λ _ fault. fault ≡ Memory };

    fn from(_: AllocError) -> LineFault {
        LineFault::Memory
    }
}

/// Whether an entry gives so many records, numbered on from the next number.
fn has_outs(entry: &Entry, next: u64, count: u64) -> bool
    ensures { IsTrue result ↔ ((entry.now.first_out ≡ (if count == 0 then 0 else next)) × (entry.now.outs ≡ count)) }
{
    let first = if count == 0 { 0 } else { next };
    entry.first_out == first && u64::from(entry.outs) == count
}

impl Replay {
    /// The replay at the start of a script.
    pub fn start(
        alloc: Global,
        shape: &Shape,
        script: &[Sent],
        buffers: Buffers,
    ) -> Result<Replay, AllocError>
        requires good { IsGoodShape shape.now }
        requires arrive { Each (Arrives shape.now) script.now }
        requires few { length script.now ≤ MOST_ENTRIES }
        requires many { length buffers ≡ length shape.now.buffers }
        ensures at { IfOk result (λ r. IsAt shape.now r.records r.buffers (start_of shape.now script.now buffers)) }
        ensures next { IfOk result (λ r. r.records.next ≡ length script.now) }
        ensures handed { IfOk result (λ r. r.records.handed ≡ length script.now) }
        ensures bytes { IfOk result (λ r. r.records.bytes ≡ 0) }
        ensures denied { IfOk result (λ r. r.denied ≡ 0) }
        ensures peak { IfOk result (λ r. r.peak ≡ 0) }
    {
        runs_fit();
        strides_are_small();
        Ok(Replay {
            records: LiveRecords::start(alloc, shape, script)?,
            buffers,
            denied: 0,
            peak: 0,
        })
    }

    /// The launch of an entry has made these records and writes.
    fn settle(
        &mut self,
        alloc: Global,
        shape: &Shape,
        entry: &Entry,
        made: &Made,
        writes: &[Write],
    ) -> Result<(), AllocError>
        requires rise { NumbersRise 0 entry.now.inputs }
        requires strides { (u : ℕ) → stride_at shape.now u ≤ MOST_STRIDE }
        requires small { self.old.records.bytes ≤ MOST_STRIDE * self.old.records.next }
        requires room { self.old.records.next + length made.now.sent < 2 ^ 50 }
        requires denied { self.old.denied < 2 ^ 63 }
        ensures keeps { OnOk result ((s : State) (l : Launched) → IsAt shape.now self.old.records self.old.buffers s → IsNamed shape.now s.bag entry.now l → Keeps shape.now self.new.records (state_after shape.now s l entry.now.at (outcome_of made.now (all_written s.buffers writes.now))).bag) }
        ensures next { OnOk result (self.new.records.next ≡ self.old.records.next + length made.now.sent) }
        ensures handed { OnOk result (self.new.records.handed ≡ self.old.records.handed) }
        ensures small { OnOk result (self.new.records.bytes ≤ MOST_STRIDE * self.new.records.next) }
        ensures buffers { OnOk result (self.new.buffers ≡ all_written self.old.buffers writes.now) }
        ensures denied { OnOk result (self.new.denied ≡ self.old.denied + made.now.denied) }
        ensures peak { OnOk result (self.new.peak ≡ max self.old.peak self.new.records.bytes) }
    {
        let numbers = entry.inputs.as_slice();
        self.records
            .take_all(alloc, shape, numbers, &entry.at, &made.shared)?;
        self.records.put_all(alloc, shape, made.sent.as_slice())?;
        self.buffers.apply(alloc, writes)?;
        self.denied += u64::from(made.denied);
        self.peak = self.peak.max(self.records.bytes);
        Ok(())
    }

    /// Takes the step that an entry names. After an error it is only dropped.
    fn step<B: Bodies>(
        &mut self,
        alloc: Global,
        bodies: &B,
        entry: &Entry,
        turns: u64,
    ) -> Result<(), LineFault>
        requires good { IsGoodShape (B.graph bodies.now) }
        requires rise { NumbersRise 0 entry.now.inputs }
        requires stands { (s : State) × IsAt (B.graph bodies.now) self.old.records self.old.buffers s }
        requires small { self.old.records.bytes ≤ MOST_STRIDE * self.old.records.next }
        requires room { self.old.records.next < 2 ^ 49 }
        requires denied { self.old.denied < 2 ^ 63 }
        ensures follows { OnOk result ((s : State) → IsAt (B.graph bodies.now) self.old.records self.old.buffers s → TakesStep (B.graph bodies.now) (B.made bodies.now) turns s entry.now self.old self.new) }
        ensures fault { IfErr result (λ f. (s : State) → IsAt (B.graph bodies.now) self.old.records self.old.buffers s → IsNoStep (B.graph bodies.now) (B.made bodies.now) turns s entry.now f) }
        ensures handed { OnOk result (self.new.records.handed ≡ self.old.records.handed) }
        ensures small { OnOk result (self.new.records.bytes ≤ MOST_STRIDE * self.new.records.next) }
        ensures next { OnOk result (self.new.records.next ≤ self.old.records.next + MOST_SENT) }
        ensures denied { OnOk result (self.new.denied ≤ self.old.denied + 2 ^ 32) }
    {
        allowed_launches_fit();
        few_are_sent();
        strides_are_small();
        steps_fit();
        match run_entry(alloc, bodies, &self.records, &self.buffers, entry, turns)? {
            Ran::NoLaunch => Err(LineFault::Wrong),
            Ran::Spent => Err(LineFault::TurnsSpent),
            Ran::Did { made, writes } => {
                if !has_outs(entry, self.records.next, made.sent.len() as u64) {
                    return Err(LineFault::Wrong);
                }
                self.settle(alloc, bodies.shape(), entry, &made, writes.as_slice())?;
                Ok(())
            }
        }
    }

    /// Takes the step of a launch line that follows so many others, where the line is right. After an error it is only
    /// dropped.
    pub fn line<B: Bodies>(
        &mut self,
        alloc: Global,
        bodies: &B,
        entry: &Entry,
        before: u64,
        bytes: u64,
        limits: &Limits,
    ) -> Result<(), LineFault>
        requires good { IsGoodShape (B.graph bodies.now) }
        requires rise { NumbersRise 0 entry.now.inputs }
        requires stands { (s : State) × IsAt (B.graph bodies.now) self.old.records self.old.buffers s }
        requires small { self.old.records.bytes ≤ MOST_STRIDE * self.old.records.next }
        requires room { self.old.records.next < 2 ^ 49 }
        requires denied { self.old.denied < 2 ^ 63 }
        ensures right { OnOk result ((s : State) → IsAt (B.graph bodies.now) self.old.records self.old.buffers s → PassesLine (terms (B.graph bodies.now) (B.made bodies.now) limits.now self.old.records.handed bytes) before s entry.now self.old self.new) }
        ensures fault { IfErr result (λ f. (s : State) → IsAt (B.graph bodies.now) self.old.records self.old.buffers s → IsFault (terms (B.graph bodies.now) (B.made bodies.now) limits.now self.old.records.handed bytes) before s entry.now f) }
        ensures handed { OnOk result (self.new.records.handed ≡ self.old.records.handed) }
        ensures small { OnOk result (self.new.records.bytes ≤ MOST_STRIDE * self.new.records.next) }
        ensures next { OnOk result (self.new.records.next ≤ self.old.records.next + MOST_SENT) }
        ensures denied { OnOk result (self.new.denied ≤ self.old.denied + 2 ^ 32) }
    {
        if before >= limits.launches {
            return Err(LineFault::Wrong);
        }
        self.step(alloc, bodies, entry, limits.turns)?;
        if self.records.bytes > bytes {
            return Err(LineFault::OverBytes);
        }
        Ok(())
    }
}
