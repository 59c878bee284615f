ghost use Rattle.std.specs.Prelude.{◌≡◌, IfOk, slice_index};
ghost use Rattle.wg_tool.specs.Sending.{word_of_launch, target_at, sent_of, add_of, adds_of};

use crate::pair::{Pair, Sends};
use std::alloc::{AllocError, Global};
use wg_machine::{Launch, Sent, SentList, Targets};
use wg_words::Words;

/// The first word of a launch's first record.
fn word_of_launch(launch: &Launch) -> u32
    ensures { result ≡ word_of_launch launch.now }
{
    match launch.records.get(0) {
        None => 0,
        Some(record) => match record.words.get(0) {
            None => 0,
            Some(word) => *word,
        },
    }
}

fn target_at(targets: &[Option<u32>], unit: usize) -> Option<u32>
    ensures { result ≡ target_at targets.now unit }
{
    match targets.get(unit) {
        None => None,
        Some(target) => *target,
    }
}

fn add_at(adds: &[u32], unit: usize) -> u32
    ensures { result ≡ slice_index adds.now unit }
{
    match adds.get(unit) {
        None => 0,
        Some(add) => *add,
    }
}

/// What a launch sends.
pub fn sent_of(
    alloc: Global,
    targets: &Targets,
    adds: &Words,
    launch: &Launch,
) -> Result<SentList, AllocError>
    ensures { IfOk result (λ sent. sent ≡ sent_of targets.now adds.now launch.now) }
{
    let unit = launch.unit as usize;
    let mut sent = SentList::new(alloc);
    let Some(target) = target_at(targets.as_slice(), unit) else {
        return Ok(sent);
    };
    let word = word_of_launch(launch).wrapping_add(add_at(adds.as_slice(), unit));
    sent.push(Sent {
        unit: target,
        words: Words::from_slice(alloc, &[word])?,
    })?;
    Ok(sent)
}

fn add_of(sends: &Option<Sends>) -> u32
    ensures { result ≡ add_of sends.now }
{
    match sends {
        None => 0,
        Some(sends) => sends.add,
    }
}

/// For each pair the word that it adds.
pub fn adds_of(alloc: Global, pairs: &[Pair]) -> Result<Words, AllocError>
    ensures { IfOk result (λ adds. adds ≡ adds_of pairs.now) }
{
    let mut adds = Words::new(alloc);
    for pair in pairs {
        adds.push(add_of(&pair.sends))?;
    }
    Ok(adds)
}
