ghost use Rattle.std.specs.Prelude.{◌≡◌, ◌<◌, IfOk, OnOk, OnSome, IfSome, length, true, unwrap_or, slice_get, None};
ghost use Rattle.wg_machine.specs.Units.{shared_at, words_at};
ghost use Rattle.wg_adders.specs.Adding.{first_word, first_words, same_words, adder_target, adder_sends};

use std::alloc::{AllocError, Global};
use wg_machine::{Bodies, Halt, Launch, Made, Memory, Record, Sent, SentList, Shape};
use wg_words::{TryCopy, Word, Words};

/// Bodies that only add: a launch adds its first record's first word to the first word of the first buffer, and sends
/// one record of that word to the first element of its unit's first output, if there is one.
#[derive(Drop)]
pub struct Adders {
    pub alloc: Global,
    pub shape: Shape,
}

fn first_of(records: &[Record]) -> Word
    ensures { result ≡ first_word records.now }
{
    match records.first() {
        Some(record) => record.words.as_slice().first().copied().unwrap_or(0),
        None => 0,
    }
}

fn target_in(shape: &Shape, unit: u32) -> Option<u32>
    ensures { result ≡ adder_target shape.now unit }
{
    let unit = shape.units.get(unit as usize)?;
    let output = unit.outputs.get(0)?;
    let target = output.elements.get(0)?;
    *target
}

fn words_in(shape: &Shape, unit: u32) -> u32
    ensures { result ≡ words_at shape.now unit }
{
    match shape.units.get(unit as usize) {
        Some(unit) => unit.words,
        None => 0,
    }
}

fn sent_to(
    alloc: Global,
    shape: &Shape,
    target: Option<u32>,
    word: Word,
) -> Result<SentList, AllocError>
    ensures { IfOk result (λ sent. sent ≡ adder_sends shape.now target word) }
{
    let mut sent = SentList::new(alloc);
    if let Some(unit) = target {
        let count = words_in(shape, unit) as usize;
        let words = vec![in alloc; word; count]?;
        sent.push(Sent {
            unit,
            words: Words::from_vec(words),
        })?;
    }
    Ok(sent)
}

fn words_of_first(alloc: Global, records: &[Record]) -> Result<Words, AllocError>
    ensures { IfOk result (λ words. words ≡ first_words records.now) }
{
    match records.first() {
        Some(record) => record.words.copy(alloc),
        None => Ok(Words::new(alloc)),
    }
}

/// The words of a record whose groups share them, as they were.
pub fn words_kept(
    alloc: Global,
    shape: &Shape,
    launch: &Launch,
) -> Result<Option<Words>, AllocError>
    ensures { IfOk result (λ words. words ≡ same_words shape.now launch.now) }
{
    if !shape.is_shared(launch.unit) {
        return Ok(None);
    }
    let words = words_of_first(alloc, launch.records.as_slice())?;
    Ok(Some(words))
}

impl Bodies for Adders {
    ghost use Rattle.wg_adders.specs.Adding.{adder_made, adder_lawful};

    ghost graph = { λ b. b.shape };

    ghost made = { λ b. adder_made b.shape };

    ghost quiet = { λ b. true };

    ghost lawful = { λ b l m t good fits. adder_lawful b.shape l m t good fits };

    fn shape(&self) -> &Shape {
        &self.shape
    }

    fn launch<M: Memory>(&self, launch: &Launch, mem: &mut M, turns: u64) -> Result<Made, Halt> {
        let _ = turns;
        let word = first_of(launch.records.as_slice());
        let target = target_in(&self.shape, launch.unit);
        let Ok(sent) = sent_to(self.alloc, &self.shape, target, word) else {
            return Err(Halt::Memory);
        };
        let Ok(shared) = words_kept(self.alloc, &self.shape, launch) else {
            return Err(Halt::Memory);
        };
        let Ok(()) = mem.add(0, 0, word) else {
            return Err(Halt::Memory);
        };
        Ok(Made {
            sent,
            denied: 0,
            turns: 0,
            shared,
        })
    }
}
