ghost use Rattle.std.specs.Prelude.{◌≡◌};
ghost use Rattle.wg_script.specs.Lines.{all_words, entry_said, start_of, count_said as counted_of, buffer_said, said_by_words, said_of, version_by, title_of};
ghost use Rattle.wg_text.specs.Refusals.{Yields};
ghost use Rattle.wg_script.specs.Words.{line_words};

use crate::fields::LineWords;
use crate::numbers::{Version, add_words, target};
use std::alloc::Global;
use wg_text::{Refusal, is_identifier};
use wg_words::{Name, Words};

/// What a line of a script says. A comment and a line of blanks say nothing.
#[derive(Debug, Drop)]
pub enum Line {
    Nothing,
    Entry {
        name: Name,
        index: u32,
        words: Words,
    },
    Buffer {
        name: Name,
        count: u32,
        words: Words,
    },
}

/// The words of 32 bits that all that is left of a line gives.
fn words(alloc: Global, version: Version, fields: &mut LineWords<'_>) -> Result<Words, Refusal>
    ensures { Yields result (all_words version fields.old) }
{
    let mut words = Words::new(alloc);
    while let Some(field) = fields.next() {
        add_words(version, field, &mut words)?;
    }
    Ok(words)
}

/// What follows `entry`.
fn entry(alloc: Global, version: Version, fields: &mut LineWords<'_>) -> Result<Line, Refusal>
    ensures { Yields result (entry_said version fields.old) }
{
    let field = fields.next().ok_or(Refusal::Form)?;
    let (name, index) = target(field).ok_or(Refusal::Form)?;
    let words = words(alloc, version, fields)?;
    let name = Name::from_slice(alloc, name)?;
    Ok(Line::Entry { name, index, words })
}

/// Nothing, or `:` and words.
fn start(alloc: Global, version: Version, fields: &mut LineWords<'_>) -> Result<Words, Refusal>
    ensures { Yields result (start_of version fields.old) }
{
    let Some(field) = fields.next() else {
        return Ok(Words::new(alloc));
    };
    if field != b":".as_slice() {
        return Err(Refusal::Form);
    }
    words(alloc, version, fields)
}

/// What follows `buffer` and its name.
fn counted(
    alloc: Global,
    version: Version,
    name: &[u8],
    fields: &mut LineWords<'_>,
) -> Result<Line, Refusal>
    ensures { Yields result (counted_of version name.now fields.old) }
{
    let field = fields.next().ok_or(Refusal::Form)?;
    let count = wg_text::word(field, 10).ok_or(Refusal::Form)?;
    let words = start(alloc, version, fields)?;
    let name = Name::from_slice(alloc, name)?;
    Ok(Line::Buffer { name, count, words })
}

/// What follows `buffer`.
fn buffer(alloc: Global, version: Version, fields: &mut LineWords<'_>) -> Result<Line, Refusal>
    ensures { Yields result (buffer_said version fields.old) }
{
    let name = fields.next().ok_or(Refusal::Form)?;
    if !is_identifier(name) {
        return Err(Refusal::Form);
    }
    counted(alloc, version, name, fields)
}

fn line_of_words(
    alloc: Global,
    version: Version,
    fields: &mut LineWords<'_>,
) -> Result<Line, Refusal>
    ensures { Yields result (said_by_words version fields.old) }
{
    let Some(first) = fields.next() else {
        return Ok(Line::Nothing);
    };
    if first == b"entry".as_slice() {
        return entry(alloc, version, fields);
    }
    if first == b"buffer".as_slice() {
        return buffer(alloc, version, fields);
    }
    Err(Refusal::Form)
}

/// What a line after the first says.
pub fn line_of(alloc: Global, version: Version, line: &[u8]) -> Result<Line, Refusal>
    ensures { Yields result (said_of version line.now) }
{
    if line.strip_prefix(b"//").is_some() {
        return Ok(Line::Nothing);
    }
    line_of_words(alloc, version, &mut LineWords::new(line))
}

fn version(field: &[u8]) -> Option<Version>
    ensures { result ≡ version_by field.now }
{
    if field == b"1".as_slice() {
        return Some(Version::One);
    }
    if field == b"2".as_slice() {
        return Some(Version::Two);
    }
    None
}

/// The version that a line names as the title, `script 1` or `script 2`.
pub fn title(line: &[u8]) -> Option<Version>
    ensures { result ≡ title_of (line_words line.now) }
{
    let mut fields = LineWords::new(line);
    let first = fields.next()?;
    let second = fields.next()?;
    if fields.next().is_some() || first != b"script".as_slice() {
        return None;
    }
    version(second)
}
