use std::fmt;

/// What a core answered to a command.
#[derive(Clone, Copy, Debug)]
pub enum Step {
    /// A launch of a unit was opened, with the group and so many records.
    Launch {
        ticket: u64,
        unit: u32,
        group: u32,
        records: usize,
        last: bool,
    },
    NotNow,
    Idle,
    LaunchesSpent,
    Kept,
    Redone,
    TurnsSpent,
    NotOut,
    Stopped,
    Memory,
}

fn write_launch<W: fmt::Write>(
    f: &mut fmt::Formatter<W>,
    ticket: u64,
    unit: u32,
    group: u32,
    records: usize,
    last: bool,
) -> fmt::Result {
    write!(
        f,
        "launch {ticket} of unit {unit} group {group} records {records}"
    )?;
    if last {
        f.write_str(" last")?;
    }
    Ok(())
}

impl fmt::Display for Step {
    fn fmt<W: fmt::Write>(&self, f: &mut fmt::Formatter<W>) -> fmt::Result {
        match self {
            Step::Launch {
                ticket,
                unit,
                group,
                records,
                last,
            } => write_launch(f, *ticket, *unit, *group, *records, *last),
            Step::NotNow => f.write_str("not now"),
            Step::Idle => f.write_str("idle"),
            Step::LaunchesSpent => f.write_str("launches spent"),
            Step::Kept => f.write_str("kept"),
            Step::Redone => f.write_str("redone"),
            Step::TurnsSpent => f.write_str("turns spent"),
            Step::NotOut => f.write_str("not out"),
            Step::Stopped => f.write_str("stopped"),
            Step::Memory => f.write_str("memory"),
        }
    }
}
