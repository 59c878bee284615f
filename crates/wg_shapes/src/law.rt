ghost use Rattle.std.specs.Prelude.{List};
ghost use Rattle.wg_machine.specs.GoodShape.{IsGoodShape};
ghost use Rattle.wg_machine.specs.declared.shape.Shape.{Shape};
ghost use Rattle.wg_node_attributes.specs.declared.attributes.NodeAttrs.{NodeAttrs};
ghost use Rattle.wg_shapes.specs.Buildable.{IsBuildable};
ghost use Rattle.wg_shapes.specs.Limits.{AreGoodAttrs};
ghost use Rattle.wg_shapes.specs.ShapeOf.{IsShapeOf};
ghost use Rattle.wg_typed.specs.declared.typed.Typed.{Typed};

/// The shape of a graph whose attributes keep their limits and whose nodes fit one another is a good one.
pub fn shapes_are_good()
    ensures good { (typed : Typed) (nodes : List NodeAttrs) (shape : Shape)
        → AreGoodAttrs typed nodes → IsBuildable typed nodes → IsShapeOf typed nodes shape → IsGoodShape shape }
{}
