ghost use Rattle.std.specs.Prelude.{◌≡◌, ℕ, true, false, List, Some};
ghost use Rattle.wg_state.specs.declared.world.World.{World};
ghost use Rattle.wg_semantics.specs.declared.state.State.{State};
ghost use Rattle.wg_semantics.specs.declared.state.Store.{Store};
ghost use Rattle.wg_semantics.specs.declared.state.Spot.TheVariants.{At};
ghost use Rattle.wg_semantics.specs.Places.{Setting, written};
ghost use Rattle.wg_semantics.specs.Calls.{Callee};
ghost use Rattle.wg_semantics.specs.LaunchMeaning.{first_values};
ghost use Rattle.wg_semantics.specs.StepMeaning.{declared_as};
ghost use Rattle.wg_typed.specs.declared.typed.TypedFunction.{TypedFunction};
ghost use Rattle.wg_typed.specs.declared.typed.TypedStruct.{TypedStruct};
ghost use Rattle.wg_typed.specs.declared.typed_expr.TypedExpr.{TypedExpr};
ghost use Rattle.wg_typed.specs.declared.typed_stmt.TypedDeclarator.{TypedDeclarator};
ghost use Rattle.wg_typed.specs.Uniform.{UniformSetting, is_uniform_start, setting_in};
ghost use Rattle.wg_uniform.specs.OneValue.{on_lane, AreAlike, MarksGroupIds, StayAlike, is_read_alike};

/// The lanes of a launch are alike as they begin, where of the system values none but `SV_GroupID` is marked.
pub fn lanes_begin_alike()
    ensures begin { (structs : List TypedStruct) (f : TypedFunction) (group threads : List ℕ) (lane other : ℕ) (w : World) → MarksGroupIds f.variables
        → AreAlike (setting_in f) (record { variables = first_values structs f group threads lane; world = w }) (record { variables = first_values structs f group threads other; world = w }) }
{}

/// Lanes that are alike stay so where each declares a local with a start value that is uniform, or that says whether the
/// launch is its record's last; and where one of them writes what no uniform expression reads.
pub fn lanes_stay_alike()
    ensures declared { (u : UniformSetting) (setting : Setting) (lane other : ℕ) (callees others : List Callee) (d : TypedDeclarator) (e : TypedExpr) (s r : State)
        → d.value ≡ Some e → is_uniform_start u e ≡ true → AreAlike u s r
        → StayAlike u (declared_as (on_lane setting lane) callees d) (declared_as (on_lane setting other) others d) s r }
    ensures stored { (u : UniformSetting) (p : Store) (from : ℕ) (values : List ℕ) (s r : State)
        → is_read_alike u p ≡ false → AreAlike u s r → AreAlike u (written (At p from) values s) r }
{}
