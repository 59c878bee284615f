use crate::fork::{shape, text};
use std::alloc::{AllocError, Global};
use std::fmt;
use wg_launch::launch;
use wg_machine::{Halt, Launch, Made, Record, Records};
use wg_semantics::Body;
use wg_words::{WordLists, Words};

/// What a launch of a unit does where so many nodes of the graph have the text's body.
#[derive(Drop)]
pub enum Outcome {
    Made(Made),
    Halted(Halt),
    Memory,
}

impl fmt::Display for Outcome {
    fn fmt<W: fmt::Write>(&self, f: &mut fmt::Formatter<W>) -> fmt::Result {
        match self {
            Outcome::Made(made) => write_made(f, made),
            Outcome::Halted(Halt::Turns) => f.write_str("no turns"),
            Outcome::Halted(Halt::Memory) | Outcome::Memory => f.write_str("memory"),
        }
    }
}

/// The records sent, each as its unit and words, the requests denied, and the new words of a shared record.
fn write_made<W: fmt::Write>(f: &mut fmt::Formatter<W>, made: &Made) -> fmt::Result {
    f.write_str("sent")?;
    for sent in made.sent.as_slice() {
        write!(f, " {}:{:?}", sent.unit, sent.words.as_slice())?;
    }
    write!(f, ", denied {}", made.denied)?;
    if let Some(words) = &made.shared {
        write!(f, ", shared {:?}", words.as_slice())?;
    }
    Ok(())
}

fn launch_of(alloc: Global, unit: u32) -> Result<Launch, AllocError> {
    let mut records = Records::new(alloc);
    let words = Words::from_slice(alloc, &[7])?;
    records.push(Record { number: 0, words })?;
    Ok(Launch {
        unit,
        records,
        group: 0,
        grid: [1, 1, 1],
        last: false,
    })
}

fn made_by(alloc: Global, unit: u32, bodies: &[Body]) -> Result<Outcome, AllocError> {
    let text = text(alloc)?;
    let shape = shape(alloc)?;
    let given = launch_of(alloc, unit)?;
    let buffers = WordLists::new(alloc);
    match launch(alloc, &text, bodies, &shape, &given, buffers, 0) {
        Ok((made, _)) => Ok(Outcome::Made(made)),
        Err(halt) => Ok(Outcome::Halted(halt)),
    }
}

/// What a launch of a unit does where so many nodes of the graph have the text's body.
pub fn outcome_of(alloc: Global, unit: u32, bodies: usize) -> Outcome {
    let body = Body {
        function: 0,
        threads: [1, 1, 1],
    };
    let all = [body, body];
    match made_by(alloc, unit, all.get(..bodies).unwrap_or(&[])) {
        Ok(outcome) => outcome,
        Err(_) => Outcome::Memory,
    }
}
