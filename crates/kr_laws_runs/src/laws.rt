// Laws of the meaning of every program.
ghost use Rattle.kr_laws_runs.specs.Laws.{BoundsLaw};

/// A bound on nesting of at least the fuel cuts nothing off, so that the meaning of a node is given by those of its parts.
pub fn bounds_law()
    ensures { BoundsLaw }
{}
