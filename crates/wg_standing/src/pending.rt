use wg_words::Numbers;

/// A launch that is out, by names alone: its ticket, its unit, its group's coordinates and its records' numbers.
///
/// The words that it reads, its grid and whether it is the last of its record are what the machine's records say when
/// it settles.
#[derive(Debug, Drop)]
pub struct Pending {
    pub ticket: u64,
    pub unit: u32,
    pub at: [u32; 3],
    pub inputs: Numbers,
}
