ghost use Rattle.std.specs.Prelude.{◌≡◌, ◌<◌, ◌+◌, ℕ, List, true, false};
ghost use Rattle.wg_code.specs.Flow.{Callees};
ghost use Rattle.wg_code.specs.Lane.{Around, Site};
ghost use Rattle.wg_code.specs.OpMeaning.{ops_do};
ghost use Rattle.wg_lowered.specs.Holding.{Agree, Beside};
ghost use Rattle.wg_lowered.specs.Where.{Names};
ghost use Rattle.wg_lowered_bodies.specs.Returning.{Ends, On};
ghost use Rattle.wg_lowered_bodies.specs.Statements.{body_code, body_need, free_of};
ghost use Rattle.wg_lowered_bodies.specs.StatementsFit.{body_fits};
ghost use Rattle.wg_semantics.specs.Calls.{Callee};
ghost use Rattle.wg_semantics.specs.Places.{Setting};
ghost use Rattle.wg_semantics.specs.StmtMeaning.{body_does};
ghost use Rattle.wg_semantics.specs.declared.state.State.{State};
ghost use Rattle.wg_typed.specs.declared.typed_stmt.TypedStmt.{TypedStmt};

/// The code of a function's body does what the body means: where the lane holds the variables, its flag is 0 and it has the
/// registers that the code needs, both are spent, or both leave the same state with as many turns, and what the function
/// returned stands in the registers of the result.
pub fn bodies_keep_their_meaning()
    ensures body { (around : Around) (functions : Callees) (setting : Setting) (callees : List Callee) (k : Names) (result : ℕ)
        (body : List TypedStmt) (registers : ℕ) (s : State) (f : Site) (turns : ℕ)
        → Beside around setting → k.structs ≡ setting.structs → body_fits k result body ≡ true
        → free_of k result + body_need k result body < registers → On k registers s f
        → Agree (Ends k registers result) (body_does setting callees body s turns)
        (ops_do false around functions (body_code k result body) f turns) }
{}
