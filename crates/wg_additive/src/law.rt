ghost use Rattle.std.specs.Prelude.{Bool, true, ◌≡◌};
ghost use Rattle.wg_additive.specs.Additive.{is_additive};
ghost use Rattle.wg_additive.specs.Quiet.{is_quiet};
ghost use Rattle.wg_typed.specs.declared.typed.Typed.{Typed};
ghost use Rattle.wg_typed.specs.declared.typed.TypedFunction.{TypedFunction};

/// An additive text is quiet.
pub fn additive_is_quiet()
    ensures quiet { (coalesces : TypedFunction → Bool) (text : Typed) → is_additive coalesces text ≡ true → is_quiet text ≡ true }
{}
