ghost use Rattle.std.specs.Prelude.{◌≡◌, IfOk};
ghost use Rattle.wg_tool.specs.FirstForm.{IsFirstForm};
ghost use Rattle.wg_tool.specs.Sending.{adds_of};
ghost use Rattle.wg_tool.specs.Wiring.{targets_of, shape_of};

use crate::bodies::Senders;
use crate::pair::Pair;
use crate::sending::adds_of;
use crate::wiring::shape_of;
use std::alloc::{AllocError, Global};
use wg_machine::Targets;

/// The bodies of a graph of the first form.
pub fn senders_of(alloc: Global, pairs: &[Pair], targets: &Targets) -> Result<Senders, AllocError>
    requires form { IsFirstForm pairs.now }
    requires targets { targets.now ≡ targets_of pairs.now }
    ensures shape { IfOk result (λ senders. senders.shape ≡ shape_of pairs.now) }
    ensures targets { IfOk result (λ senders. senders.targets ≡ targets_of pairs.now) }
    ensures adds { IfOk result (λ senders. senders.adds ≡ adds_of pairs.now) }
{
    let shape = shape_of(alloc, pairs, targets.as_slice())?;
    let targets = Targets::from_slice(alloc, targets.as_slice())?;
    let adds = adds_of(alloc, pairs)?;
    Ok(Senders {
        alloc,
        shape,
        targets,
        adds,
    })
}
