ghost use Rattle.std.specs.Prelude.{◌≡◌, ℕ, false};
ghost use Rattle.wg_machine.specs.Units.{shared_at};

use crate::form::Form;
use crate::work::perform;
use std::alloc::Global;
use wg_machine::{Bodies, Halt, Launch, Made, Memory, SentList, Shape};

/// Bodies whose launches all do one form: something to a word, the form at that word, then stores of what the form found
/// and of what is read there afterwards, in the second buffer. They send nothing, and no unit shares its records.
#[derive(Drop)]
pub struct Exchangers {
    pub alloc: Global,
    pub shape: Shape,
    pub form: Form,

    ghost none_shared: { (u : ℕ) → shared_at shape u ≡ false },
}

impl Bodies for Exchangers {
    ghost use Rattle.wg_exchangers.specs.Exchanging.{exchanger_made};
    ghost use Rattle.wg_exchangers.specs.ExchangingLaws.{exchanger_lawful};

    ghost graph = { λ b. b.shape };

    ghost made = { λ b. exchanger_made b.form };

    ghost quiet = { λ b. false };

    ghost lawful = { λ b l m t good fits. exchanger_lawful b.shape b.form l m t b.none_shared };

    fn shape(&self) -> &Shape {
        &self.shape
    }

    fn launch<M: Memory>(&self, launch: &Launch, mem: &mut M, turns: u64) -> Result<Made, Halt> {
        let _ = launch;
        perform(mem, &self.form)?;
        if self.form.turns > turns {
            return Err(Halt::Turns);
        }
        Ok(Made {
            sent: SentList::new(self.alloc),
            denied: 0,
            turns: self.form.turns,
            shared: None,
        })
    }
}
