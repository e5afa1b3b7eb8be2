ghost use Rattle.run_laws.specs.Whole.{AreWholeRuns, AreWholeScripts};

/// Where nothing is left for a component before the end, its run up to where it stands is its whole run. Where a
/// port's next null message isn't before the end, its transcript so far is the whole transcript.
pub fn with_nothing_left_it_is_whole<S>()
    ensures run { AreWholeRuns S }
    ensures transcript { AreWholeScripts S }
{}
