// Laws of spans and pieces.
ghost use Rattle.kr_deque.specs.Joined.{JoinedLaw, PartsLaw};

/// Spans that cover each key of the asked one exactly once have no gap and no double.
#[tactic(auto, using(crate::proofs::Parts::parts_law))]
pub fn parts_law()
    ensures { PartsLaw }
{}

/// Pieces of a survey, joined, give the survey's listing of the asked span.

pub fn joined_law<R>()
    ensures { JoinedLaw R }
{}
