ghost use Rattle.wg_tool.specs.SenderLaws.{IsWired};

use crate::sending::sent_of;
use std::alloc::Global;
use wg_machine::{Bodies, Halt, Launch, Made, Memory, Shape, Targets};
use wg_words::Words;

/// The bodies of a graph of the first form: its shape, and for each unit its target and the word that it adds.
#[derive(Drop)]
pub struct Senders {
    pub alloc: Global,
    pub shape: Shape,
    pub targets: Targets,
    pub adds: Words,
    ghost wired: { IsWired shape targets },
}

impl Bodies for Senders {
    ghost use Rattle.std.specs.Prelude.{true};
    ghost use Rattle.wg_tool.specs.Sending.{sender};
    ghost use Rattle.wg_tool.specs.SenderLaws.{sender_lawful};

    ghost graph = { λ b. b.shape };

    ghost made = { λ b. sender b.targets b.adds };

    ghost quiet = { λ _. true };

    ghost lawful = { λ b l m t _ _. sender_lawful b.shape b.targets b.adds l m t b.wired };

    fn shape(&self) -> &Shape {
        &self.shape
    }

    fn launch<M: Memory>(&self, launch: &Launch, _: &mut M, _: u64) -> Result<Made, Halt> {
        let Ok(sent) = sent_of(self.alloc, &self.targets, &self.adds, launch) else {
            return Err(Halt::Memory);
        };
        Ok(Made {
            sent,
            denied: 0,
            turns: 0,
            shared: None,
        })
    }
}
