ghost use Rattle.std.specs.Prelude.{◌≡◌, ◌≢◌, ◌<◌, ◌≤◌, ◌^◌, ◌++◌, List, ℕ, length, IsTrue, IfOk, IfSome, IfNone};
ghost use Rattle.wg_words.specs.Each.{Each};
ghost use Rattle.wg_machine.specs.declared.launch.Sent.{Sent as SentOf};
ghost use Rattle.wg_tool.specs.Parts.{is_name};
ghost use Rattle.wg_tool.specs.FirstForm.{IsFirstForm};
ghost use Rattle.wg_tool.specs.Script.{entry_line, pair_name_at, line_of, entry_lines, script_text, IsFormEntry, IsFormScript, IsNoScript};
ghost use Rattle.wg_tool.specs.Wiring.{targets_of};

use crate::pair::Pair;
use crate::parts::{read_name, read_word, strip};
use crate::wiring::{is_free, place_of};
use std::alloc::{AllocError, Global};
use wg_machine::{Entries, Sent};
use wg_words::Words;

/// The line that each script begins with.
pub const SCRIPT_LINE: &[u8] = b"script 1\n";

pub const ENTRY: &[u8] = b"entry ";

pub const BLANK: &[u8] = b" ";

pub const LINE_END: &[u8] = b"\n";

pub const MOST_ENTRIES: usize = 1000;

/// The name and the word of the line of an entry record, and what follows it.
fn read_line<'a>(
    alloc: Global,
    bytes: &'a [u8],
) -> Result<Option<(&'a [u8], u32, &'a [u8])>, AllocError>
    ensures found { IfOk result (λ o. IfSome o (λ x. IsTrue (is_name x.0.now) × (x.1 < 2 ^ 32) × (bytes.now ≡ entry_line x.0.now x.1 ++ x.2.now))) }
    ensures none { IfOk result (λ o. IfNone o ((name : List ℕ) (word : ℕ) (more : List ℕ) → IsTrue (is_name name) → word < 2 ^ 32 → bytes.now ≢ entry_line name word ++ more)) }
{
    let Some(after_entry) = strip(bytes, ENTRY) else {
        return Ok(None);
    };
    let Some((name, after_name)) = read_name(after_entry) else {
        return Ok(None);
    };
    let Some(digits) = strip(after_name, BLANK) else {
        return Ok(None);
    };
    let Some((word, end)) = read_word(alloc, digits)? else {
        return Ok(None);
    };
    let Some(rest) = strip(end, LINE_END) else {
        return Ok(None);
    };
    Ok(Some((name, word, rest)))
}

/// An entry record, and what follows its line.
fn read_entry<'a>(
    alloc: Global,
    pairs: &[Pair],
    targets: &[Option<u32>],
    bytes: &'a [u8],
) -> Result<Option<(Sent, &'a [u8])>, AllocError>
    requires form { IsFirstForm pairs.now }
    requires targets { targets.now ≡ targets_of pairs.now }
    ensures found { IfOk result (λ o. IfSome o (λ x. IsFormEntry pairs.now x.0 × (bytes.now ≡ line_of pairs.now x.0 ++ x.1.now))) }
    ensures none { IfOk result (λ o. IfNone o ((s : SentOf) (more : List ℕ) → IsFormEntry pairs.now s → bytes.now ≢ line_of pairs.now s ++ more)) }
{
    let Some((name, word, rest)) = read_line(alloc, bytes)? else {
        return Ok(None);
    };
    let Some(place) = place_of(pairs, name) else {
        return Ok(None);
    };
    let unit = place as u32;
    if !is_free(targets, unit) {
        return Ok(None);
    }
    let words = Words::from_slice(alloc, &[word])?;
    Ok(Some((Sent { unit, words }, rest)))
}

/// The entry records of a script of the first form.
pub fn read_script(
    alloc: Global,
    pairs: &[Pair],
    targets: &[Option<u32>],
    text: &[u8],
) -> Result<Option<Entries>, AllocError>
    requires form { IsFirstForm pairs.now }
    requires targets { targets.now ≡ targets_of pairs.now }
    ensures found { IfOk result (λ o. IfSome o (λ entries. IsFormScript pairs.now entries × (text.now ≡ script_text pairs.now entries))) }
    ensures none { IfOk result (λ o. IfNone o (IsNoScript pairs.now text.now)) }
{
    let Some(mut rest) = strip(text, SCRIPT_LINE) else {
        return Ok(None);
    };
    let mut entries = Vec::new(alloc);
    while !rest.is_empty() {
        if entries.len() == MOST_ENTRIES {
            return Ok(None);
        }
        let Some((entry, after)) = read_entry(alloc, pairs, targets, rest)? else {
            return Ok(None);
        };
        entries.push(entry)?;
        rest = after;
    }
    Ok(Some(Entries::from_vec(entries)))
}
