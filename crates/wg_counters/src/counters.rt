ghost use Rattle.std.specs.Prelude.{◌≡◌, ◌+◌, ◌%◌, ◌^◌, false, None, IfOk, length, map, slice_get, slice_index, unwrap_or};
ghost use Rattle.wg_machine.specs.Units.{words_at};
ghost use Rattle.wg_counters.specs.Counting.{
  asked,
  asked_at,
  asked_by,
  copies,
  first_word,
  first_words,
  next_words,
  nothing as asked_nothing,
  stays,
};

use std::alloc::{AllocError, Global};
use wg_machine::{
    Atomic, Bodies, Halt, Launch, Made, Memory, Output, Record, Sent, SentList, Shape, Unit,
};
use wg_words::{Word, Words};

/// Bodies that count the records that launches take, in the first word of the first buffer.
///
/// A launch makes as many turns as its record's first word and the count before it say together. It asks for as many
/// records as the budget of its unit's first output allows, at the first element of that; each of their words is its own
/// record's first word. Where this element is absent it is denied. Where groups share a record each adds 1 to every word
/// of it, and only the last asks.
#[derive(Drop)]
pub struct Counters {
    pub alloc: Global,
    pub shape: Shape,
}

/// What a launch asked for: the records that it was granted, and how many requests were granted none.
#[derive(Drop)]
pub struct Asked {
    pub sent: SentList,
    pub denied: u32,
}

fn first_of(records: &[Record]) -> &[Word]
    ensures { result.now ≡ first_words records.now }
{
    match records.first() {
        Some(record) => record.words.as_slice(),
        None => &[],
    }
}

fn first_word_of(records: &[Record]) -> Word
    ensures { result ≡ first_word records.now }
{
    first_of(records).first().copied().unwrap_or(0)
}

fn words_in(shape: &Shape, unit: u32) -> u32
    ensures { result ≡ words_at shape.now unit }
{
    match shape.units.get(unit as usize) {
        Some(unit) => unit.words,
        None => 0,
    }
}

fn copies_of(
    alloc: Global,
    shape: &Shape,
    unit: u32,
    count: u32,
    word: Word,
) -> Result<SentList, AllocError>
    ensures { IfOk result (λ sent. sent ≡ copies shape.now unit count word) }
{
    let length = words_in(shape, unit) as usize;
    let mut sent = SentList::new(alloc);
    for _ in 0..count {
        let words = vec![in alloc; word; length]?;
        sent.push(Sent {
            unit,
            words: Words::from_vec(words),
        })?;
    }
    Ok(sent)
}

fn nothing(alloc: Global) -> Asked
    ensures { result ≡ asked_nothing }
{
    Asked {
        sent: SentList::new(alloc),
        denied: 0,
    }
}

fn ask_at(
    alloc: Global,
    shape: &Shape,
    count: u32,
    word: Word,
    target: Option<u32>,
) -> Result<Asked, AllocError>
    ensures { IfOk result (λ a. a ≡ asked_at shape.now count word target) }
{
    match target {
        None => Ok(Asked {
            sent: SentList::new(alloc),
            denied: 1,
        }),
        Some(unit) => Ok(Asked {
            sent: copies_of(alloc, shape, unit, count, word)?,
            denied: 0,
        }),
    }
}

fn target_of(output: &Output) -> Option<u32>
    ensures { result ≡ unwrap_or (slice_get output.now.elements 0) None }
{
    match output.elements.get(0) {
        Some(target) => *target,
        None => None,
    }
}

fn budget_of(unit: &Unit, output: &Output) -> u32
    ensures { result ≡ slice_index unit.now.budgets output.now.budget }
{
    let place = output.budget as usize;
    unit.budgets.as_slice().get(place).copied().unwrap_or(0)
}

/// What a launch of a unit asks for.
fn ask_by(alloc: Global, shape: &Shape, word: Word, unit: &Unit) -> Result<Asked, AllocError>
    ensures { IfOk result (λ a. a ≡ asked_by shape.now word unit.now) }
{
    match unit.outputs.get(0) {
        Some(output) => ask_at(
            alloc,
            shape,
            budget_of(unit, output),
            word,
            target_of(output),
        ),
        None => Ok(nothing(alloc)),
    }
}

fn is_staying(shape: &Shape, launch: &Launch) -> bool
    ensures { result ≡ stays shape.now launch.now }
{
    if launch.last {
        false
    } else {
        shape.is_shared(launch.unit)
    }
}

fn ask(alloc: Global, shape: &Shape, launch: &Launch) -> Result<Asked, AllocError>
    ensures { IfOk result (λ a. a ≡ asked shape.now launch.now) }
{
    if is_staying(shape, launch) {
        return Ok(nothing(alloc));
    }
    match shape.units.get(launch.unit as usize) {
        Some(unit) => ask_by(alloc, shape, first_word_of(launch.records.as_slice()), unit),
        None => Ok(nothing(alloc)),
    }
}

/// Words that are each one more.
fn one_more(alloc: Global, words: &[Word]) -> Result<Words, AllocError>
    ensures { IfOk result (λ more. more ≡ map (λ w. (w + 1) % 2 ^ 32) words.now) }
{
    let mut more = Words::new(alloc);
    for word in words {
        more.push(word.wrapping_add(1))?;
    }
    Ok(more)
}

/// The new words of a record that its groups share.
fn words_after(alloc: Global, shape: &Shape, launch: &Launch) -> Result<Option<Words>, AllocError>
    ensures { IfOk result (λ words. words ≡ next_words shape.now launch.now) }
{
    if !shape.is_shared(launch.unit) {
        return Ok(None);
    }
    let words = one_more(alloc, first_of(launch.records.as_slice()))?;
    Ok(Some(words))
}

fn count_of(launch: &Launch) -> Word
    ensures { result ≡ length launch.now.records % 2 ^ 32 }
{
    (launch.records.len() % (1 << 32)) as u32
}

impl Bodies for Counters {
    ghost use Rattle.wg_counters.specs.Counting.{counter_made};
    ghost use Rattle.wg_counters.specs.CountingLaws.{counter_lawful};

    ghost graph = { λ b. b.shape };

    ghost made = { λ b. counter_made b.shape };

    ghost quiet = { λ b. false };

    ghost lawful = { λ b l m t good fits. counter_lawful b.shape l m t good fits };

    fn shape(&self) -> &Shape {
        &self.shape
    }

    fn launch<M: Memory>(&self, launch: &Launch, mem: &mut M, turns: u64) -> Result<Made, Halt> {
        let asked = ask(self.alloc, &self.shape, launch)?;
        let shared = words_after(self.alloc, &self.shape, launch)?;
        let before = mem.interlocked(Atomic::Add, 0, 0, 0, count_of(launch))?;
        let needed = u64::from(first_word_of(launch.records.as_slice())) + u64::from(before);
        if needed > turns {
            return Err(Halt::Turns);
        }
        Ok(Made {
            sent: asked.sent,
            denied: asked.denied,
            turns: needed,
            shared,
        })
    }
}
