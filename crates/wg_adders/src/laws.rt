ghost use Rattle.std.specs.Prelude.{◌≡◌, ℕ, false};
ghost use Rattle.wg_machine.specs.declared.shape.Shape.{Shape as Graph};
ghost use Rattle.wg_machine.specs.declared.launch.Launch.{Launch as Launched};
ghost use Rattle.wg_machine.specs.Additive.{IsAdditive};
ghost use Rattle.wg_machine.specs.Fitting.{IsLawful};
ghost use Rattle.wg_machine.specs.GoodShape.{IsGoodShape};
ghost use Rattle.wg_machine.specs.LaunchMeaning.{FitsShape};
ghost use Rattle.wg_machine.specs.Units.{kind_at, is_coalescing, shared_at};
ghost use Rattle.wg_adders.specs.Adding.{adder_made};
ghost use Rattle.wg_adders.specs.Doubling.{doubler_made};

/// The adders' launches keep to the laws on every good shape.
pub fn adders_keep_laws()
    ensures { (shape : Graph) → IsGoodShape shape → IsLawful shape (adder_made shape) }
{}

/// The adders only add, on every graph without coalescing and shared units.
pub fn adders_add()
    ensures { (shape : Graph) → ((u : ℕ) → is_coalescing (kind_at shape u) ≡ false) → ((u : ℕ) → shared_at shape u ≡ false) → IsAdditive shape (adder_made shape) }
{}

/// The doublers do not, on any graph that has a launch.
pub fn doublers_do_not_add()
    ensures { (shape : Graph) (launch : Launched) → FitsShape shape launch → IsAdditive shape (doubler_made shape) → ⊥ }
{}
