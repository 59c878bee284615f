ghost use Rattle.wg_machine.specs.declared.shape.Shape.{Shape as Graph};
ghost use Rattle.wg_machine.specs.GoodShape.{IsGoodShape};
ghost use Rattle.wg_plan.specs.Limits.{IsSmall};

/// A good shape is small enough to be planned.
pub fn good_shapes_are_small()
    ensures { (shape : Graph) → IsGoodShape shape → IsSmall shape }
{}
