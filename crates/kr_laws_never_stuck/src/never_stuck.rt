// Runs of what is accepted.
ghost use Rattle.kr_laws_never_stuck.specs.NeverStuck.{NeverStuckLaw};

/// Of sources and a finitization that are accepted no run is stuck on any candidate: neither that of the predicate and the
/// preconditions, nor any part of a test.
pub fn never_stuck_law()
    ensures { NeverStuckLaw }
{}
