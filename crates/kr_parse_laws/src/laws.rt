// Theorems on the grammar and its machine.
ghost use Rattle.kr_parse_laws.specs.Laws.{OneTree, SmallTrees, Soundness, Completeness, Productivity, Preservation, Termination};

/// A list of tokens has at most one tree.
pub fn one_tree()
    ensures { OneTree }
{}

/// A tree has at most three nodes for each token, and one more.
pub fn small_trees()
    ensures { SmallTrees }
{}

/// Tokens that the machine accepts are derivable.
pub fn soundness()
    ensures { Soundness }
{}

/// The machine accepts derivable tokens.
pub fn completeness()
    ensures { Completeness }
{}

/// The machine never gets stuck: good symbols can be taken, and replacing a goal keeps them good and makes them
/// lighter.
pub fn productivity()
    ensures taken { Productivity }
    ensures kept { Preservation }
    ensures falls { Termination }
{}
