//! A run in rounds is given by its graph, its script and the number of workers.

ghost use Rattle.wg_rounds.specs.Laws.{NeverBoth, RunsOutOnce, StopsOnce};

/// A run in rounds that comes to its end has one end.
pub fn runs_out_once()
    ensures { RunsOutOnce }
{}

/// One that stops before a launch that is spent stops before one launch, in one state.
pub fn stops_once()
    ensures { StopsOnce }
{}

/// No run in rounds does both.
pub fn never_both()
    ensures { NeverBoth }
{}
