ghost use Rattle.std.specs.Prelude.{◌≡◌, ◌≤◌, ◌<◌, ◌+◌, ℕ, List, Bool, true, false};
ghost use Rattle.wg_code.specs.Flow.{Callees};
ghost use Rattle.wg_code.specs.Lane.{Around, Site};
ghost use Rattle.wg_code.specs.OpMeaning.{ops_do};
ghost use Rattle.wg_lowered.specs.Exprs.{coded, value_code, value_need};
ghost use Rattle.wg_lowered.specs.Fits.{is_lowered};
ghost use Rattle.wg_lowered.specs.Holding.{Agree, Beside, Holds, Leaves};
ghost use Rattle.wg_lowered.specs.Where.{Names, variables_end};
ghost use Rattle.wg_semantics.specs.Calls.{Callee, value_of};
ghost use Rattle.wg_semantics.specs.ExprMeaning.{seen};
ghost use Rattle.wg_semantics.specs.Places.{Setting};
ghost use Rattle.wg_semantics.specs.declared.state.State.{State};
ghost use Rattle.wg_typed.specs.declared.typed_expr.TypedExpr.{TypedExpr};

/// The code of an expression does what the expression means: where the lane holds the variables and has the registers that the
/// code needs, both are spent, or both leave the same state, and the registers that the code names hold the value's words.
pub fn expressions_keep_their_meaning()
    ensures value { (around : Around) (functions : Callees) (setting : Setting) (callees : List Callee) (k : Names) (e : TypedExpr)
        (registers d : ℕ) (s : State) (f : Site) (turns : ℕ)
        → Beside around setting → k.structs ≡ setting.structs → is_lowered k e ≡ true
        → variables_end k ≤ d → d + value_need k (coded k e) < registers → Holds k registers s f
        → Agree (Leaves k registers d (value_code k (coded k e) d).at f)
        (value_of setting.structs (seen setting callees e) s turns)
        (ops_do false around functions (value_code k (coded k e) d).ops f turns) }
{}
