use std::fmt;
use wg_guess::Guess;
use wg_machine::{Seen, Write};

/// A guess as it is printed: its turns and denied requests or that it is spent, its log, and its writes.
#[derive(Clone, Copy)]
pub struct Told<'a>(pub &'a Guess);

fn write_log<W: fmt::Write>(f: &mut fmt::Formatter<W>, log: &[Seen]) -> fmt::Result {
    for seen in log {
        write!(f, " {}.{}={}", seen.buffer, seen.word, seen.value)?;
    }
    Ok(())
}

fn write_one<W: fmt::Write>(f: &mut fmt::Formatter<W>, write: Write) -> fmt::Result {
    match write {
        Write::Set {
            buffer,
            word,
            value,
        } => write!(f, " {buffer}.{word}={value}"),
        Write::Add {
            buffer,
            word,
            value,
        } => write!(f, " {buffer}.{word}+{value}"),
    }
}

fn write_writes<W: fmt::Write>(f: &mut fmt::Formatter<W>, writes: &[Write]) -> fmt::Result {
    for write in writes {
        write_one(f, *write)?;
    }
    Ok(())
}

impl<'a> fmt::Display for Told<'a> {
    fn fmt<W: fmt::Write>(&self, f: &mut fmt::Formatter<W>) -> fmt::Result {
        match &self.0.answer {
            Some(made) => write!(f, "turns {}", made.turns)?,
            None => f.write_str("spent")?,
        }
        f.write_str(", log")?;
        write_log(f, self.0.log.as_slice())?;
        f.write_str(", writes")?;
        write_writes(f, self.0.writes.as_slice())
    }
}
