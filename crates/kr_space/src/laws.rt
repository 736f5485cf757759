// Laws of documents.
ghost use Rattle.kr_space.specs.Laws.{LimitsLaw};

/// Integers of a document that was read have 32 bits, and lengths are at most 64, as `judge_space` requires.
#[tactic(auto, using(crate::proofs::ReadLimits::read_limits))]
pub fn limits_law()
    ensures { LimitsLaw }
{}
