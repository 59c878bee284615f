ghost use Rattle.std.specs.Prelude.{◌≡◌, ◌<◌, ◌^◌, ◌↔◌, IsTrue, length, is_none};
ghost use Rattle.std.specs.List.{list_all};
ghost use Rattle.wg_machine.specs.Agreement.{has_seen};
ghost use Rattle.wg_machine.specs.Buffers.{lengths_of};

use wg_machine::{Launch, Made, ReadLog, Seen, View, Writes};
use wg_words::Words;

/// What a launch did that was run ahead: what it read, what it would write, and what it made, none where it was spent.
#[derive(Drop)]
pub struct Guess {
    pub launch: Launch,
    /// The lengths of all buffers.
    pub lengths: Words,
    pub log: ReadLog,
    pub writes: Writes,
    pub answer: Option<Made>,

    ghost few: { length lengths < 2 ^ 32 },
}

impl Guess {
    ghost use Rattle.wg_guess.specs.Guesses.{IsFor};

    /// The launch that was run.
    pub fn launch(&self) -> &Launch
        ensures { result.now ≡ self.now.launch }
    {
        &self.launch
    }

    /// Whether the launch spent its turns.
    pub fn spent(&self) -> bool
        ensures { result ≡ is_none self.now.answer }
    {
        self.answer.is_none()
    }

    /// Whether the buffers of a view agree with what the launch read. The view has as many as were logged.
    pub fn agrees<V: View>(&self, view: &V) -> bool
        requires { length (V.buffers view.now) ≡ length self.now.lengths }
        ensures { IsTrue result ↔ IsFor self.now (V.buffers view.now) }
    {
        has_lengths(view, self.lengths.as_slice()) && has_words(view, self.log.as_slice())
    }

    /// The launch, what it made if it was not spent, and its writes. It takes no memory.
    pub fn parts(self) -> (Launch, Option<Made>, Writes)
        ensures launch { result.0 ≡ self.launch }
        ensures made { result.1 ≡ self.answer }
        ensures writes { result.2 ≡ self.writes }
    {
        let Guess {
            launch,
            lengths: _,
            log: _,
            writes,
            answer,
        } = self;
        (launch, answer, writes)
    }
}

fn has_lengths<V: View>(view: &V, lengths: &[u32]) -> bool
    requires many { length (V.buffers view.now) ≡ length lengths.now }
    requires few { length lengths.now < 2 ^ 32 }
    ensures { IsTrue result ↔ (lengths_of (V.buffers view.now) ≡ lengths.now) }
{
    for (buffer, length) in lengths.iter().enumerate() {
        if view.length(buffer as u32) != *length {
            return false;
        }
    }
    true
}

fn has_words<V: View>(view: &V, log: &[Seen]) -> bool
    ensures { result ≡ list_all (has_seen (V.buffers view.now)) log.now }
{
    log.iter()
        .all(|seen| view.word(seen.buffer, seen.word) == seen.value)
}

#[cfg(test)]
mod tests;
