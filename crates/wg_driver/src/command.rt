use std::str::SplitWhitespace;

/// What a core is asked to do.
#[derive(Clone, Copy, Debug)]
pub enum Command {
    /// Opens the launch that comes next, and guesses it over the buffers now.
    Open,
    /// Settles the launch of a ticket, by the guess of the launch of a ticket.
    Settle { ticket: u64, guess: Option<u64> },
    /// So many commands that a seed chooses.
    Random { seed: u64, count: u64 },
}

fn number(words: &mut SplitWhitespace<'_>) -> Option<u64> {
    words.next()?.parse::<u64>().ok()
}

fn settle(words: &mut SplitWhitespace<'_>) -> Option<Command> {
    let ticket = number(words)?;
    let guess = match words.next() {
        Some("by") => Some(number(words)?),
        _ => None,
    };
    Some(Command::Settle { ticket, guess })
}

/// The command of a line.
pub fn command_of(line: &str) -> Option<Command> {
    let mut words = line.split_whitespace();
    match words.next()? {
        "open" => Some(Command::Open),
        "settle" => settle(&mut words),
        "random" => Some(Command::Random {
            seed: number(&mut words)?,
            count: number(&mut words)?,
        }),
        _ => None,
    }
}

/// The next number of a row that looks random: a step of a linear congruence on 64 bits.
fn next_of(state: u64) -> u64 {
    state
        .wrapping_mul(6_364_136_223_846_793_005)
        .wrapping_add(1_442_695_040_888_963_407)
}

/// The seed after this one, and the command that it chooses where so many launches were opened.
pub fn chosen(seed: u64, opened: u32) -> (u64, Command) {
    let tickets = u64::from(opened) + 1;
    let seed = next_of(seed);
    let kind = (seed >> 33) % 5;
    let ticket = (seed >> 36) % tickets;
    let guess = (seed >> 48) % tickets;
    let command = match kind {
        0 | 1 => Command::Open,
        2 => Command::Settle {
            ticket,
            guess: None,
        },
        3 => Command::Settle {
            ticket,
            guess: Some(ticket),
        },
        _ => Command::Settle {
            ticket,
            guess: Some(guess),
        },
    };
    (seed, command)
}
