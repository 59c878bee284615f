ghost use Rattle.std.specs.Prelude.{◌≡◌, [], List, length, OnOk};
ghost use Rattle.wg_machine.specs.declared.launch.Sent.{Sent as SentOf};
ghost use Rattle.wg_standing.specs.Standing.{StandsFor};
ghost use Rattle.wg_standing.specs.Idle.{IsIdle};
ghost use Rattle.wg_tool.specs.Running.{KeepsPlan, IsBetweenLaunches, IsOnlyOut, RanOne, StandsShort};
ghost use Rattle.wg_tool.specs.Sending.{sender};
ghost use Rattle.wg_words.specs.declared.limits.TheConstants.{DEFAULT_LAUNCHES};

use crate::bodies::Senders;
use std::alloc::AllocError;
use wg_engine::{Core, Opened, Settled};
use wg_kept::Keep;

/// What one opening and its settling came to.
#[derive(Clone, Copy, Debug, PartialEq, Eq)]
enum Stepped {
    Ran,
    Idle,
    Memory,
}

/// Settles the one launch that is out.
fn settle(senders: &Senders, core: &mut Core<Keep>, ticket: u64) -> Result<(), AllocError>
    requires graph { senders.now.shape ≡ core.old.shape }
    requires out { IsOnlyOut core.old ticket }
    ensures stands { (script : List SentOf) → StandsFor (sender senders.now.targets senders.now.adds) script [] core.old → StandsFor (sender senders.now.targets senders.now.adds) script [] core.new }
    ensures plan { KeepsPlan core.old core.new }
    ensures ran { OnOk result (RanOne core.old core.new) }
{
    match core.settle(senders, ticket, None) {
        Settled::Redone => Ok(()),
        Settled::Memory => Err(AllocError),
        Settled::Kept | Settled::TurnsSpent(_) | Settled::NotOut | Settled::Stopped =>
            unreachable!(),
    }
}

/// Opens the next launch and settles it.
fn step(senders: &Senders, core: &mut Core<Keep>) -> Stepped
    requires graph { senders.now.shape ≡ core.old.shape }
    requires limit { core.old.limits.launches ≡ DEFAULT_LAUNCHES }
    requires ready { IsBetweenLaunches core.old }
    requires short { StandsShort (sender senders.now.targets senders.now.adds) core.old }
    ensures stands { (script : List SentOf) → StandsFor (sender senders.now.targets senders.now.adds) script [] core.old → StandsFor (sender senders.now.targets senders.now.adds) script [] core.new }
    ensures plan { KeepsPlan core.old core.new }
    ensures ran { result ≡ Stepped.Ran → RanOne core.old core.new }
    ensures idle { result ≡ Stepped.Idle → IsIdle core.new }
    ensures free { result ≡ Stepped.Idle → core.new.stopped ≡ None }
{
    match core.open() {
        Opened::Idle => Stepped::Idle,
        Opened::Memory => Stepped::Memory,
        Opened::Launch(out) => match settle(senders, core, out.ticket) {
            Ok(()) => Stepped::Ran,
            Err(_) => Stepped::Memory,
        },
        Opened::NotNow | Opened::LaunchesSpent | Opened::Stopped => unreachable!(),
    }
}

/// Opens and settles one launch after another, until nothing is left.
pub fn run_all(senders: &Senders, core: &mut Core<Keep>) -> Result<(), AllocError>
    requires graph { senders.now.shape ≡ core.old.shape }
    requires limit { core.old.limits.launches ≡ DEFAULT_LAUNCHES }
    requires ready { IsBetweenLaunches core.old }
    requires short { StandsShort (sender senders.now.targets senders.now.adds) core.old }
    ensures stands { (script : List SentOf) → StandsFor (sender senders.now.targets senders.now.adds) script [] core.old → StandsFor (sender senders.now.targets senders.now.adds) script [] core.new }
    ensures plan { KeepsPlan core.old core.new }
    ensures idle { OnOk result (IsIdle core.new) }
    ensures free { OnOk result (core.new.stopped ≡ None) }
{
    loop {
        match step(senders, core) {
            Stepped::Ran => (),
            Stepped::Idle => return Ok(()),
            Stepped::Memory => return Err(AllocError),
        }
    }
}
