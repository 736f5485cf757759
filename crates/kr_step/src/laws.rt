// Finding the first candidate above a cut, again and again, lists the entries above it.
ghost use Rattle.kr_step.specs.Stages.{FirstLaw};

/// The first listed candidates above cuts are the entries, in order.
pub fn first_law<R>()
    ensures { FirstLaw R }
{}
