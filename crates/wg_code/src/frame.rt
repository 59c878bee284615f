use wg_machine::Records;
use wg_state::Grant;
use wg_words::{Items, Word, Words};

pub type Grants = Items<Grant>;

/// A lane between two bodies: its own registers, what its launch's lanes share, the turns that were made, and what the launch tells.
#[derive(Debug, Drop)]
pub struct Frame {
    pub unit: u32,
    pub group: u32,
    pub lane: u32,
    pub registers: Words,
    pub shared: Words,
    pub inputs: Records,
    pub left: Words,
    pub grants: Grants,
    pub denied: u32,
    pub turns: u64,
    pub last: bool,
    pub grid: [Word; 3],
}
