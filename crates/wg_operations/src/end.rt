ghost use Rattle.std.specs.Prelude.{◌≡◌};
ghost use Rattle.wg_operations.specs.Says.{passes, goes_round};

/// How operations end: they went through, or a `Break` or a `Continue` stopped them.
#[derive(Clone, Copy, Debug, PartialEq, Eq)]
pub enum End {
    Through,
    Out,
    Again,
}

/// Whether the operations behind are run.
pub fn goes_through(end: End) -> bool
    ensures { result ≡ passes end }
{
    match end {
        End::Through => true,
        End::Out | End::Again => false,
    }
}

/// Whether a loop goes on after its test, its body or its step.
pub fn goes_on(end: End) -> bool
    ensures { result ≡ goes_round end }
{
    match end {
        End::Through | End::Again => true,
        End::Out => false,
    }
}
