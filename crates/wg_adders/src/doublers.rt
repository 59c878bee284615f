ghost use Rattle.std.specs.Prelude.{◌≡◌, false};

use crate::adders::words_kept;
use std::alloc::Global;
use wg_machine::{Bodies, Halt, Launch, Made, Memory, SentList, Shape};

/// Bodies that read: a launch doubles the first word of the first buffer.
#[derive(Drop)]
pub struct Doublers {
    pub alloc: Global,
    pub shape: Shape,
}

impl Bodies for Doublers {
    ghost use Rattle.wg_adders.specs.Doubling.{doubler_made, doubler_lawful};

    ghost graph = { λ b. b.shape };

    ghost made = { λ b. doubler_made b.shape };

    ghost quiet = { λ b. false };

    ghost lawful = { λ b l m t good fits. doubler_lawful b.shape l m t fits };

    fn shape(&self) -> &Shape {
        &self.shape
    }

    fn launch<M: Memory>(&self, launch: &Launch, mem: &mut M, turns: u64) -> Result<Made, Halt> {
        let _ = turns;
        let Ok(shared) = words_kept(self.alloc, &self.shape, launch) else {
            return Err(Halt::Memory);
        };
        let Ok(word) = mem.load(0, 0) else {
            return Err(Halt::Memory);
        };
        let Ok(()) = mem.store(0, 0, word.wrapping_add(word)) else {
            return Err(Halt::Memory);
        };
        Ok(Made {
            sent: SentList::new(self.alloc),
            denied: 0,
            turns: 0,
            shared,
        })
    }
}
