use crate::answer::{Answer, LENGTHS};
use std::fmt;
use wg_buffers::Buffers;
use wg_guess::Guess;
use wg_machine::{Made, Seen, Sent, View};
use wg_words::Word;

fn write_words<W: fmt::Write>(f: &mut fmt::Formatter<W>, words: &[Word]) -> fmt::Result {
    for word in words {
        write!(f, " {word}")?;
    }
    Ok(())
}

fn write_sent<W: fmt::Write>(f: &mut fmt::Formatter<W>, sent: &[Sent]) -> fmt::Result {
    for record in sent {
        write!(f, ", sent to {}:", record.unit)?;
        write_words(f, record.words.as_slice())?;
    }
    Ok(())
}

/// The turns, and what else there is of denied requests, new words of the input and sent records.
fn write_made<W: fmt::Write>(f: &mut fmt::Formatter<W>, made: &Made) -> fmt::Result {
    write!(f, "turns {}", made.turns)?;
    if made.denied > 0 {
        write!(f, ", denied {}", made.denied)?;
    }
    if let Some(words) = &made.shared {
        f.write_str(", input")?;
        write_words(f, words.as_slice())?;
    }
    write_sent(f, made.sent.as_slice())
}

/// The words that were read, if any was.
fn write_log<W: fmt::Write>(f: &mut fmt::Formatter<W>, log: &[Seen]) -> fmt::Result {
    if log.is_empty() {
        return Ok(());
    }
    f.write_str(", read")?;
    for seen in log {
        write!(f, " {}.{}={}", seen.buffer, seen.word, seen.value)?;
    }
    Ok(())
}

/// How many words of a buffer there are up to the last that is not 0.
fn count_words(buffers: &Buffers, buffer: u32, length: u32) -> u32 {
    let mut count = 0;
    for word in 0..length {
        if buffers.word(buffer, word) != 0 {
            count = word + 1;
        }
    }
    count
}

/// The words of a buffer without the zeros at its end.
fn write_buffer<W: fmt::Write>(
    f: &mut fmt::Formatter<W>,
    buffers: &Buffers,
    buffer: u32,
    length: u32,
) -> fmt::Result {
    for word in 0..count_words(buffers, buffer, length) {
        write!(f, " {}", buffers.word(buffer, word))?;
    }
    Ok(())
}

fn write_after<W: fmt::Write>(f: &mut fmt::Formatter<W>, after: &Buffers) -> fmt::Result {
    f.write_str(", after")?;
    write_buffer(f, after, 0, LENGTHS[0])?;
    f.write_str(" /")?;
    write_buffer(f, after, 1, LENGTHS[1])
}

fn write_guess<W: fmt::Write>(
    f: &mut fmt::Formatter<W>,
    guess: &Guess,
    after: &Buffers,
) -> fmt::Result {
    match &guess.answer {
        Some(made) => write_made(f, made)?,
        None => f.write_str("spent")?,
    }
    write_log(f, guess.log.as_slice())?;
    if guess.writes.is_empty() || guess.spent() {
        return Ok(());
    }
    write_after(f, after)
}

impl fmt::Display for Answer {
    fn fmt<W: fmt::Write>(&self, f: &mut fmt::Formatter<W>) -> fmt::Result {
        match self {
            Answer::Guessed { guess, after } => write_guess(f, guess, after),
            Answer::Refused => f.write_str("refused"),
            Answer::Unfit => f.write_str("unfit"),
            Answer::Memory => f.write_str("memory"),
        }
    }
}
