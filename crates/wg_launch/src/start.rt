ghost use Rattle.std.specs.Prelude.{◌≡◌, ◌*◌, IfOk, take};
ghost use Rattle.wg_semantics.specs.LaunchMeaning.{system_words, begins_with, first_value, first_values, first_shared};

use std::alloc::{AllocError, Global};
use wg_state::{coordinates, dispatch_place};
use wg_typed::{SystemValue, TypedFunction, TypedShared, TypedVariable};
use wg_values::{Structs, zero_value, zero_words};
use wg_words::{Word, WordLists, Words};

/// The words of a system value.
fn system_value(
    alloc: Global,
    group: [Word; 3],
    threads: [Word; 3],
    lane: u32,
    value: SystemValue,
) -> Result<Words, AllocError>
    ensures { IfOk result (λ list. list ≡ system_words group threads lane value) }
{
    match value {
        SystemValue::GroupId => Words::from_slice(alloc, &group),
        SystemValue::GroupThreadId => Words::from_slice(alloc, &coordinates(threads, lane)),
        SystemValue::DispatchThreadId => Words::from_slice(
            alloc,
            &dispatch_place(group, threads, lane),
        ),
        SystemValue::GroupIndex => Words::from_slice(alloc, &[lane]),
    }
}

fn first_words(alloc: Global, words: &[Word], count: u64) -> Result<Words, AllocError>
    ensures { IfOk result (λ list. list ≡ take count words.now) }
{
    if count < words.len() as u64 {
        Words::from_slice(alloc, &words[..count as usize])
    } else {
        Words::from_slice(alloc, words)
    }
}

/// Where a lane stands: its group, the threads of a group, and its number.
#[derive(Clone, Copy)]
pub struct LaneSpot {
    pub group: [Word; 3],
    pub threads: [Word; 3],
    pub lane: u32,
}

/// So many words of a system value, or zeros where there is none.
fn words_at_first(
    alloc: Global,
    at: LaneSpot,
    count: u64,
    system: Option<SystemValue>,
) -> Result<Words, AllocError>
    ensures { IfOk result (λ list. list ≡ begins_with at.group at.threads at.lane count system) }
{
    match system {
        None => zero_words(alloc, count),
        Some(value) => {
            let words = system_value(alloc, at.group, at.threads, at.lane, value)?;
            first_words(alloc, words.as_slice(), count)
        }
    }
}

fn value_at_first(
    alloc: Global,
    structs: &Structs<'_>,
    at: LaneSpot,
    v: &TypedVariable,
) -> Result<Words, AllocError>
    ensures { IfOk result (λ list. list ≡ first_value structs.now at.group at.threads at.lane v.now) }
{
    words_at_first(alloc, at, structs.words(v.of)?, v.system)
}

/// The variables of an entry function as a lane begins.
pub fn values_at_first(
    alloc: Global,
    structs: &Structs<'_>,
    f: &TypedFunction,
    at: LaneSpot,
) -> Result<WordLists, AllocError>
    ensures { IfOk result (λ list. list ≡ first_values structs.now f.now at.group at.threads at.lane) }
{
    let mut list = WordLists::new(alloc);
    for v in f.variables.as_slice() {
        list.push(value_at_first(alloc, structs, at, v)?)?;
    }
    Ok(list)
}

/// Groupshared variables as they are before a launch.
pub fn shared(
    alloc: Global,
    structs: &Structs<'_>,
    variables: &[TypedShared],
) -> Result<WordLists, AllocError>
    ensures { IfOk result (λ list. list ≡ first_shared structs.now variables.now) }
{
    let mut list = WordLists::new(alloc);
    for v in variables {
        list.push(zero_value(alloc, structs, v.of)?)?;
    }
    Ok(list)
}
