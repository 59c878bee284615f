ghost use Rattle.std.specs.Prelude.{◌≡◌, ℕ, Bool, false, List, [], ◌∷◌, Some, None, slice_get};
ghost use Rattle.wg_machine.specs.declared.shape.Unit.{Unit as Node};
ghost use Rattle.wg_semantics.specs.Calls.{callee_at};
ghost use Rattle.wg_semantics.specs.FunctionMeaning.{callees_of};
ghost use Rattle.wg_semantics.specs.LaunchMeaning.{body_runs, entry_does, entry_doing, lanes_run};
ghost use Rattle.wg_semantics.specs.Places.{Setting};
ghost use Rattle.wg_semantics.specs.declared.state.Lane.{Lane};
ghost use Rattle.wg_sound.specs.Room.{input_of, is_node, outputs_of};
ghost use Rattle.wg_sound.specs.Sound.{IsSound, IsSoundFunction};
ghost use Rattle.wg_state.specs.declared.world.World.{World};
ghost use Rattle.wg_typed.specs.declared.typed.Typed.{Typed};
ghost use Rattle.wg_typed.specs.declared.typed.TypedEntry.{TypedEntry};
ghost use Rattle.wg_typed.specs.declared.typed.TypedFunction.{TypedFunction};

/// In a node of one lane the phases of a launch are its body run as one block, after which a lane that has returned skips the rest.
pub fn one_lane_runs_one_block()
    ensures block { (text : Typed) (number : ℕ) (f : TypedFunction) (e : TypedEntry) (unit : Node) (last : Bool) (lane : Lane) (w : World) (t : ℕ)
        → IsSoundFunction text number f → f.entry ≡ Some e → e.lanes ≡ 1
        → body_runs (entry_doing text f unit last) f.body (lane ∷ []) w t ≡ lanes_run (entry_does text f unit last f.body) 0 (lane ∷ []) w t }
{}

/// A plain function of a sound text asks its setting for the structs alone: where these are the same, it does the same.
pub fn plain_functions_ask_for_structs()
    ensures same { (text : Typed) (number : ℕ) (f : TypedFunction) (a b : Setting) (values : List (List ℕ)) (w : World) (t : ℕ)
        → IsSound text → slice_get text.functions number ≡ Some f → is_node f ≡ false → a.structs ≡ b.structs
        → (callee_at (callees_of a text.functions) number).does values w t ≡ (callee_at (callees_of b text.functions) number).does values w t }
{}

/// A sound plain function has no input, no outputs and no handles.
pub fn plain_functions_have_no_objects()
    ensures input { (text : Typed) (number : ℕ) (f : TypedFunction) → IsSoundFunction text number f → is_node f ≡ false → input_of f.parameters ≡ None }
    ensures outputs { (text : Typed) (number : ℕ) (f : TypedFunction) → IsSoundFunction text number f → is_node f ≡ false → outputs_of f.parameters ≡ [] }
    ensures handles { (text : Typed) (number : ℕ) (f : TypedFunction) → IsSoundFunction text number f → is_node f ≡ false → f.handles ≡ [] }
{}
