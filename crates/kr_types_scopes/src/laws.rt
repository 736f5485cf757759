// Theorems on all trees.
ghost use Rattle.kr_types_scopes.specs.Noting.{LocalLaw, JudgedLaw};

/// The note of a node follows from those of its parts, each in its own scope.
pub fn local_law()
    ensures { LocalLaw }
{}

/// Notes that follow, node by node, from those of the parts are the notes of the tree's judgement.
pub fn judged_law()
    ensures { JudgedLaw }
{}
