//! Laws of checked code.
ghost use Rattle.std.specs.Prelude.{◌≡◌, ◌≢◌, ℕ, IsTrue, true, false, List};
ghost use Rattle.wg_machine.specs.Buffers.{Buffers};
ghost use Rattle.wg_machine.specs.GoodShape.{IsGoodShape};
ghost use Rattle.wg_machine.specs.LaunchMeaning.{FitsShape};
ghost use Rattle.wg_machine.specs.declared.launch.Launch.{Launch as Launched};
ghost use Rattle.wg_code.specs.CodeMeaning.{GoesWrong, verdict};
ghost use Rattle.wg_code.specs.FrameMeaning.{lane_verdict, LaneGoesWrong, LaneMakes, FrameFits};
ghost use Rattle.wg_code.specs.Valid.{valid};
ghost use Rattle.wg_code.specs.declared.code.RawCode.{RawCode as Raw};
ghost use Rattle.wg_code.specs.declared.frame.Frame.{Frame as Framed};
ghost use Rattle.wg_code.specs.declared.op.Op.{Op as Operation};

/// Valid code never goes wrong.
pub fn never_wrong()
    ensures { (code : Raw) (launch : Launched) (buffers : Buffers) (turns : ℕ)
        → IsTrue (valid code) → IsGoodShape code.shape → FitsShape code.shape launch
        → verdict true code launch buffers turns ≢ GoesWrong }
{}

/// Valid code does the same where nothing is tested as it runs.
pub fn tests_change_nothing()
    ensures { (code : Raw) (launch : Launched) (buffers : Buffers) (turns : ℕ)
        → IsTrue (valid code) → IsGoodShape code.shape → FitsShape code.shape launch
        → verdict true code launch buffers turns ≡ verdict false code launch buffers turns }
{}

/// A body of a part of valid code goes through on a frame that fits it: it never goes wrong, it does the same where nothing is
/// tested, and the frame that it makes fits each body that the frame before it fits.
pub fn bodies_go_through()
    ensures right { (code : Raw) (body : List Operation) (frame : Framed) (buffers : Buffers) (turns : ℕ)
        → IsTrue (valid code) → IsGoodShape code.shape → FrameFits code body frame
        → lane_verdict true code body frame buffers turns ≢ LaneGoesWrong }
    ensures same { (code : Raw) (body : List Operation) (frame : Framed) (buffers : Buffers) (turns : ℕ)
        → IsTrue (valid code) → IsGoodShape code.shape → FrameFits code body frame
        → lane_verdict true code body frame buffers turns ≡ lane_verdict false code body frame buffers turns }
    ensures fits { (code : Raw) (body : List Operation) (frame : Framed) (buffers : Buffers) (turns : ℕ) (after : Framed) (left : Buffers) (other : List Operation)
        → IsTrue (valid code) → IsGoodShape code.shape → FrameFits code body frame
        → lane_verdict true code body frame buffers turns ≡ LaneMakes after left → FrameFits code other frame → FrameFits code other after }
{}
