ghost use Rattle.std.specs.Prelude.{◌≡◌, ℕ, List, Some, None, slice_get, take};
ghost use Rattle.wg_typed.specs.declared.typed.TypedFunction.{TypedFunction};
ghost use Rattle.wg_semantics.specs.Calls.{callee_at, no_callee};
ghost use Rattle.wg_semantics.specs.FunctionMeaning.{callee_of, callees_of};
ghost use Rattle.wg_semantics.specs.Places.{Setting};

/// The meaning of a function's number is that of the function, which calls only those before it, or of none.
pub fn callees_are_functions()
    ensures found { (setting : Setting) (functions : List TypedFunction) (number : ℕ) (f : TypedFunction)
        → slice_get functions number ≡ Some f
        → callee_at (callees_of setting functions) number ≡ callee_of setting (callees_of setting (take number functions)) f }
    ensures missing { (setting : Setting) (functions : List TypedFunction) (number : ℕ)
        → slice_get functions number ≡ None → callee_at (callees_of setting functions) number ≡ no_callee }
{}
