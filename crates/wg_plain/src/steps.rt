ghost use Rattle.std.specs.Prelude.{◌≡◌, ◌↔◌, ◌≤◌, ◌<◌, ◌^◌, ◌+◌, ◌++◌, ◌==◌, ℕ, max, length, IsTrue, IfOk, if◌then◌else◌};
ghost use Rattle.std.specs.List.{flat_map};
ghost use Rattle.wg_words.specs.Each.{Each};
ghost use Rattle.wg_words.specs.declared.limits.TheConstants.{MOST_SENT, MOST_STRIDE};
ghost use Rattle.wg_machine.specs.Bytes.{live_bytes};
ghost use Rattle.wg_machine.specs.GoodShape.{IsGoodShape};
ghost use Rattle.wg_machine.specs.LaunchMeaning.{FitsShape, Arrives};
ghost use Rattle.wg_machine.specs.State.{start, born, kept};
ghost use Rattle.wg_machine.specs.Step.{left_after};
ghost use Rattle.wg_machine.specs.Units.{stride_at};
ghost use Rattle.wg_plain.specs.Sizes.{AreShort, bytes_of_bag};
ghost use Rattle.wg_plain.specs.Stepped.{IsSound, RanIs, Steps, state_of};

use crate::bag::find;
use crate::changes::{after_launch, arrive, bytes_of};
use crate::traced::{Traced, copies};
use std::alloc::{AllocError, Global};
use wg_machine::{
    Bag, Bodies, Entry, Halt, Launch, Made, Sent, Shape, allowed_is_launch_in,
    allowed_launches_fit, few_are_sent, runs_fit, steps_fit, strides_are_small,
};
use wg_words::{WordLists, Words};

/// What a run leaves: the live records with the groups that have not run, the number of the next record, the
/// buffers, the requests that were granted none, and the greatest number of bytes of live records at any time.
#[derive(Debug, Drop)]
pub struct Rest {
    pub bag: Bag,
    pub next: u64,
    pub buffers: WordLists,
    pub denied: u64,
    pub peak: u64,
}

/// What a launch made, and the buffers after it.
#[derive(Debug, Drop)]
pub struct Ran {
    pub made: Made,
    pub buffers: WordLists,
}

fn run<B: Bodies>(
    alloc: Global,
    bodies: &B,
    launch: &Launch,
    buffers: &[Words],
    turns: u64,
) -> Result<Option<Ran>, AllocError>
    requires good { IsGoodShape (B.graph bodies.now) }
    requires fits { FitsShape (B.graph bodies.now) launch.now }
    requires short { AreShort buffers.now }
    ensures { IfOk result (RanIs (B.graph bodies.now) (B.made bodies.now) turns launch.now buffers.now) }
{
    let mut memory = Traced::new(alloc, buffers)?;
    match bodies.launch(launch, &mut memory, turns) {
        Ok(made) => Ok(Some(Ran {
            made,
            buffers: memory.into_buffers(),
        })),
        Err(Halt::Turns) => Ok(None),
        Err(Halt::Memory) => Err(AllocError),
    }
}

fn has_outs(entry: &Entry, next: u64, count: u64) -> bool
    ensures { IsTrue result ↔ ((entry.now.first_out ≡ (if count == 0 then 0 else next)) × (entry.now.outs ≡ count)) }
{
    let first = if count == 0 { 0 } else { next };
    entry.first_out == first && u64::from(entry.outs) == count
}

fn commit(
    alloc: Global,
    shape: &Shape,
    rest: Rest,
    handed: u64,
    entry: &Entry,
    ran: Ran,
) -> Result<Rest, AllocError>
    requires strides { (u : ℕ) → stride_at shape.now u ≤ MOST_STRIDE }
    requires records { length rest.bag + length ran.made.sent < 2 ^ 50 }
    requires next { rest.next + length ran.made.sent < 2 ^ 64 }
    requires denied { rest.denied + ran.made.denied < 2 ^ 64 }
    ensures bag { IfOk result (λ new. new.bag ≡ left_after entry.now.inputs entry.now.at ran.made.shared rest.bag ++ flat_map kept (born shape.now rest.next ran.made.sent)) }
    ensures next { IfOk result (λ new. new.next ≡ rest.next + length ran.made.sent) }
    ensures buffers { IfOk result (λ new. new.buffers ≡ ran.buffers) }
    ensures denied { IfOk result (λ new. new.denied ≡ rest.denied + ran.made.denied) }
    ensures peak { IfOk result (λ new. new.peak ≡ max rest.peak (bytes_of_bag shape.now handed new.bag)) }
{
    let Rest {
        bag,
        next,
        buffers: _,
        denied,
        peak,
    } = rest;
    let mut bag = after_launch(
        alloc,
        bag,
        entry.inputs.as_slice(),
        &entry.at,
        &ran.made.shared,
    )?;
    arrive(alloc, shape, &mut bag, next, ran.made.sent.as_slice())?;
    let bytes = bytes_of(shape, bag.as_slice(), handed);
    Ok(Rest {
        bag,
        next: next + ran.made.sent.len() as u64,
        buffers: ran.buffers,
        denied: denied + u64::from(ran.made.denied),
        peak: peak.max(bytes),
    })
}

/// What no entry leaves: where a run of a script starts.
pub fn started(
    alloc: Global,
    shape: &Shape,
    script: &[Sent],
    buffers: &[Words],
) -> Result<Rest, AllocError>
    requires good { IsGoodShape shape.now }
    requires arrive { Each (Arrives shape.now) script.now }
    requires short { AreShort buffers.now }
    requires few { length script.now < 2 ^ 32 }
    ensures state { IfOk result (λ rest. state_of rest ≡ start shape.now script.now buffers.now) }
    ensures denied { IfOk result (λ rest. rest.denied ≡ 0) }
    ensures peak { IfOk result (λ rest. rest.peak ≡ live_bytes shape.now (length script.now) (state_of rest)) }
    ensures sound { IfOk result (IsSound shape.now) }
{
    runs_fit();
    strides_are_small();
    let handed = script.len() as u64;
    let mut bag = Bag::new(alloc);
    arrive(alloc, shape, &mut bag, 0, script)?;
    let peak = bytes_of(shape, bag.as_slice(), handed);
    Ok(Rest {
        bag,
        next: handed,
        buffers: copies(alloc, buffers)?,
        denied: 0,
        peak,
    })
}

/// Makes the step of an entry; none where the entry is no step. `handed` is the number of entry records.
pub fn step<B: Bodies>(
    alloc: Global,
    bodies: &B,
    rest: Rest,
    handed: u64,
    entry: &Entry,
    turns: u64,
) -> Result<Option<Rest>, AllocError>
    requires good { IsGoodShape (B.graph bodies.now) }
    requires sound { IsSound (B.graph bodies.now) rest }
    requires next { rest.next + MOST_SENT < 2 ^ 50 }
    requires denied { rest.denied + 2 ^ 32 < 2 ^ 64 }
    ensures { IfOk result (Steps (B.graph bodies.now) (B.made bodies.now) turns handed rest entry.now) }
{
    allowed_launches_fit();
    few_are_sent();
    steps_fit();
    strides_are_small();
    allowed_is_launch_in();
    let Some(launch) = find(alloc, bodies.shape(), rest.bag.as_slice(), entry)? else {
        return Ok(None);
    };
    let Some(ran) = run(alloc, bodies, &launch, rest.buffers.as_slice(), turns)? else {
        return Ok(None);
    };
    if !has_outs(entry, rest.next, ran.made.sent.len() as u64) {
        return Ok(None);
    }
    let after = commit(alloc, bodies.shape(), rest, handed, entry, ran)?;
    Ok(Some(after))
}
