// A candidate is the least of its class exactly where each of its choices is allowed.
ghost use Rattle.kr_iso.specs.Laws.{ChoiceLaw};
ghost use Rattle.kr_mean.specs.Blocks.{RenamingLaw};

/// A candidate is least exactly where each of its choices is allowed.
pub fn choice_law<M>()
    ensures { ChoiceLaw M }
{}

/// A renaming by objects and places equals arithmetic on the numbers of slots and on indices.
pub fn renaming_law()
    ensures { RenamingLaw }
{}
