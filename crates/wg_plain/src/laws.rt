ghost use Rattle.std.specs.Prelude.{◌≡◌, ℕ, List};
ghost use Rattle.wg_machine.specs.declared.shape.Shape.{Shape as Graph};
ghost use Rattle.wg_machine.specs.declared.launch.Entry.{Entry as Line};
ghost use Rattle.wg_machine.specs.LaunchMeaning.{Meaning};
ghost use Rattle.wg_machine.specs.Run.{IsRun};
ghost use Rattle.wg_machine.specs.State.{State};
ghost use Rattle.wg_machine.specs.Step.{Passed};

use wg_machine::allowed_is_launch_in;

/// Entries are a run from a state in at most one way, so what a run leaves is determined by its entries.
pub fn one_run()
    ensures { (shape : Graph) (made : Meaning) (turns : ℕ) (s : State) (entries : List Line) (trail other : List Passed) (final last : State)
        → IsRun shape made turns s entries trail final → IsRun shape made turns s entries other last
        → (trail ≡ other) × (final ≡ last) }
{
    allowed_is_launch_in();
}
