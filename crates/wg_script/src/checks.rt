ghost use Rattle.std.specs.Prelude.{◌≡◌, ◌<◌, ◌^◌};
ghost use Rattle.wg_script.specs.Rules.{is_above as is_above_most, grid_is_large as is_large, bool_is_bad as is_bad};
ghost use Rattle.wg_script.specs.Reading.{unless_broken, record_fault, entry_checked, buffer_checked};

use crate::ScriptFault;
use crate::draft::Given;
use wg_machine::{Kind, Shape, Unit};
use wg_words::limits::{MOST_ALL_BUFFER_WORDS, MOST_BUFFER_WORDS, MOST_ENTRIES};

/// Whether a component of a grid, where the record has it, is above the most.
fn is_above(first: u32, parts: u32, words: &[u32], place: u32, most: u32) -> bool
    ensures { result ≡ is_above_most first parts words.now place most }
{
    let word = words.get(first as usize + place as usize).copied();
    place < parts && most < word.unwrap_or(0)
}

/// Whether the grid that a record holds has a component above the maximum.
fn grid_is_large(kind: Kind, words: &[u32]) -> bool
    ensures { result ≡ is_large kind words.now }
{
    match kind {
        Kind::Thread | Kind::Coalescing { .. } | Kind::Grid { .. } => false,
        Kind::GridField {
            first,
            parts,
            x,
            y,
            z,
        } => {
            is_above(first, parts, words, 0, x)
                || is_above(first, parts, words, 1, y)
                || is_above(first, parts, words, 2, z)
        }
    }
}

/// Whether a `bool` word is neither 0 nor 1.
fn bool_is_bad(places: &[u32], words: &[u32]) -> bool
    ensures { result ≡ is_bad places.now words.now }
{
    for place in places {
        if words.get(*place as usize).copied().unwrap_or(0) > 1 {
            return true;
        }
    }
    false
}

/// The first rule that a record of a unit breaks, after so many entries.
fn check_record(unit: &Unit, words: &[u32], entries: usize, line: u64) -> Result<(), ScriptFault>
    ensures { result ≡ unless_broken tt (record_fault unit.now words.now entries line) }
{
    if words.len() != unit.words as usize {
        return Err(ScriptFault::WordCount {
            line,
            want: u64::from(unit.words),
            have: words.len() as u64,
        });
    }
    if grid_is_large(unit.kind, words) {
        return Err(ScriptFault::GridTooLarge { line });
    }
    if bool_is_bad(unit.bools.as_slice(), words) {
        return Err(ScriptFault::BadBool { line });
    }
    if entries >= MOST_ENTRIES {
        return Err(ScriptFault::TooMany { line });
    }
    Ok(())
}

/// The entry unit that an entry line names, where the line breaks no rule.
pub fn check_entry(
    shape: &Shape,
    target: Option<Option<u32>>,
    words: &[u32],
    entries: usize,
    line: u64,
) -> Result<u32, ScriptFault>
    ensures { result ≡ entry_checked shape.now target words.now entries line }
{
    let Some(entry) = target else {
        return Err(ScriptFault::NoNode { line });
    };
    let Some(number) = entry else {
        return Err(ScriptFault::NotEntry { line });
    };
    let Some(unit) = shape.units.get(number as usize) else {
        return Err(ScriptFault::NotEntry { line });
    };
    check_record(unit, words, entries, line)?;
    Ok(number)
}

/// The place of the buffer that a buffer line names, where the line breaks no rule.
pub fn check_buffer(
    given: &[Option<Given>],
    place: Option<usize>,
    count: u32,
    words: &[u32],
    asked: u64,
    line: u64,
) -> Result<usize, ScriptFault>
    requires { asked < 2 ^ 63 }
    ensures { result ≡ buffer_checked given.now place count words.now asked line }
{
    if words.len() > count as usize {
        return Err(ScriptFault::WordCount {
            line,
            want: u64::from(count),
            have: words.len() as u64,
        });
    }
    let Some(place) = place else {
        return Err(ScriptFault::NoBuffer { line });
    };
    match given.get(place) {
        None => return Err(ScriptFault::NoBuffer { line }),
        Some(Some(_)) => return Err(ScriptFault::TwiceBuffer { line }),
        Some(None) => (),
    }
    if count > MOST_BUFFER_WORDS || asked + u64::from(count) > u64::from(MOST_ALL_BUFFER_WORDS) {
        return Err(ScriptFault::TooMany { line });
    }
    Ok(place)
}
