ghost use Rattle.std.specs.Prelude.{◌≡◌};
ghost use Rattle.wg_machine.specs.GoodShape.{IsGoodShape};
ghost use Rattle.wg_script.specs.Fit.{IsFit};
ghost use Rattle.wg_driver.specs.Driving.{KeepsPlan};

use crate::calls::settle;
use crate::step::Step;
use std::alloc::{AllocError, Global};
use wg_buffers::Buffers;
use wg_engine::{Core, Opened, Report};
use wg_kept::Keep;
use wg_machine::{Bodies, View};
use wg_plain::{Replayed, Rest, replay};
use wg_script::Script;
use wg_words::Word;

/// More calls than a row's run has left.
const MOST_CALLS: u32 = 10_000;

/// Settles what is out, and runs what is left.
pub fn run_out<B: Bodies>(core: &mut Core<Keep>, bodies: &B)
    requires graph { B.graph bodies.now ≡ core.old.shape }
    ensures plan { KeepsPlan core.old core.new }
{
    for _ in 0..MOST_CALLS {
        if let Some(ticket) = core.first_out() {
            let Step::Redone = settle(core, bodies, ticket, None) else {
                return;
            };
        } else {
            let Opened::Launch(_) = core.open() else {
                return;
            };
        }
    }
}

fn has_words(buffers: &Buffers, place: u32, words: &[Word]) -> bool {
    for (word, value) in words.iter().enumerate() {
        let Ok(word) = u32::try_from(word) else {
            return false;
        };
        if buffers.word(place, word) != *value {
            return false;
        }
    }
    true
}

fn has_buffers(report: &Report, rest: &Rest) -> bool {
    for (place, words) in rest.buffers.as_slice().iter().enumerate() {
        let Ok(place) = u32::try_from(place) else {
            return false;
        };
        if !has_words(&report.buffers, place, words.as_slice()) {
            return false;
        }
    }
    true
}

/// Whether the plain program of the machine makes the launches of a report, and leaves what the report says.
#[tactic(auto, using(crate::proofs::Short::fit_is_short))]
pub fn is_replayed<B: Bodies>(
    alloc: Global,
    bodies: &B,
    script: &Script,
    report: &Report,
) -> Result<bool, AllocError>
    requires good { IsGoodShape (B.graph bodies.now) }
    requires fit { IsFit (B.graph bodies.now) script.now }
{
    let entries = report.journal.entries.as_slice();
    if u32::try_from(entries.len()).is_err() {
        return Ok(false);
    }
    let records = script.entries.as_slice();
    let start = script.start.as_slice();
    match replay(alloc, bodies, records, start, report.limits.turns, entries)? {
        Replayed::NoStep { entry: _ } => Ok(false),
        Replayed::Run(rest) => {
            let numbers = (rest.next, rest.denied, rest.peak);
            Ok(
                numbers == (report.records, report.denied, report.peak)
                    && has_buffers(report, &rest),
            )
        }
    }
}
