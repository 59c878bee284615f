ghost use Rattle.std.specs.Prelude.{◌≡◌, ◌↔◌, ◌≤◌, ◌<◌, ℕ, Some, IsTrue, IfSome, IfNone, length, slice_get};
ghost use Rattle.wg_words.specs.declared.limits.TheConstants.{MOST_BUFFERS};
ghost use Rattle.wg_machine.specs.Buffers.{buffer_at};
ghost use Rattle.wg_verify.specs.Tails.{buffer_line, buffer_lines, AreFirst, DifferAt};

use wg_buffers::Buffers;
use wg_machine::{BufferLine, View};
use wg_words::{Name, Names, Word};

/// Whether these are the words of a buffer.
fn are_words(buffers: &Buffers, place: u32, words: &[Word]) -> bool
    ensures { IsTrue result ↔ (words.now ≡ buffer_at buffers.now place) }
{
    if words.len() != buffers.length(place) as usize {
        return false;
    }
    for (word, value) in words.iter().enumerate() {
        if buffers.word(place, word as u32) != *value {
            return false;
        }
    }
    true
}

/// Whether a line is that of a buffer.
fn is_buffer_line(buffers: &Buffers, place: u32, name: &Name, line: &BufferLine) -> bool
    ensures { IsTrue result ↔ (line.now ≡ buffer_line name.now (buffer_at buffers.now place)) }
{
    line.name.as_slice() == name.as_slice()
        && line.count == u64::from(buffers.length(place))
        && are_words(buffers, place, line.words.as_slice())
}

/// Whether a line is that of the buffer at a place.
fn is_line_at(buffers: &Buffers, names: &Names, place: usize, line: &BufferLine) -> bool
    requires many { length buffers.now ≡ length names.now }
    requires few { length names.now ≤ MOST_BUFFERS }
    ensures { IsTrue result ↔ (slice_get (buffer_lines names.now buffers.now) place ≡ Some line.now) }
{
    match names.get(place) {
        Some(name) => is_buffer_line(buffers, place as u32, name, line),
        None => false,
    }
}

/// The place of the first line of buffers that is not right.
pub fn first_wrong(buffers: &Buffers, names: &Names, lines: &[BufferLine]) -> Option<usize>
    requires many { length buffers.now ≡ length names.now }
    requires few { length names.now ≤ MOST_BUFFERS }
    ensures none { IfNone result (AreFirst lines.now (buffer_lines names.now buffers.now)) }
    ensures some { IfSome result (λ k. DifferAt k lines.now (buffer_lines names.now buffers.now)) }
    ensures within { IfSome result (λ k. k ≤ length names.now) }
{
    for (place, line) in lines.iter().enumerate() {
        if !is_line_at(buffers, names, place, line) {
            return Some(place);
        }
    }
    None
}
