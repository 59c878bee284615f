ghost use Rattle.std.specs.Prelude.{◌≡◌, IsTrue};
ghost use Rattle.wg_code.specs.Valid.{valid};

use std::alloc::Global;
use wg_code::Code;
use wg_group::run_group;
use wg_machine::{Bodies, Halt, Launch, Made, Memory, Shape};

/// Checked code as the bodies of its graph.
#[derive(Drop)]
pub struct Coded {
    alloc: Global,
    code: Code,
    ghost checked: { IsTrue (valid code) },
}

impl Coded {
    /// The bodies of checked code.
    pub fn new(alloc: Global, code: Code) -> Coded
        ensures { result.code ≡ code }
    {
        Coded { alloc, code }
    }
}

impl Bodies for Coded {
    ghost use Rattle.wg_code.specs.CodeMeaning.{code_made};
    ghost use Rattle.wg_code.specs.Quiet.{is_quiet};
    ghost use Rattle.wg_coded.specs.CodeLaws.{code_lawful};

    ghost graph = { λ b. b.code.shape };

    ghost made = { λ b. code_made b.code };

    ghost quiet = { λ b. is_quiet b.code };

    ghost lawful = { λ b l m t good fits. code_lawful b.code b.checked l m t good fits };

    fn shape(&self) -> &Shape {
        &self.code.raw().shape
    }

    fn launch<M: Memory>(&self, launch: &Launch, mem: &mut M, turns: u64) -> Result<Made, Halt> {
        run_group(self.alloc, &self.code, launch, mem, turns)
    }
}
