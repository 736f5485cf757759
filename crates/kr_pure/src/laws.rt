// The nodes of code, and those of its tree.
ghost use Rattle.kr_pure.specs.Seen.{ExpressionLaw, ExpressionsLaw, MaybeLaw, StatementsLaw, SuperLaw};
ghost use Rattle.kr_pure.specs.Walk.{AllLaw, WalkLaw};

/// The nodes of an expression's code are those of its tree that are no types, each in the scope that is handed to it, as it runs.
pub fn expression_law()
    ensures { ExpressionLaw }
{}

/// Likewise of several in a list.
pub fn expressions_law()
    ensures { ExpressionsLaw }
{}

/// Likewise of one that may be absent.
pub fn maybe_law()
    ensures { MaybeLaw }
{}

/// Likewise of statements.
pub fn statements_law()
    ensures { StatementsLaw }
{}

/// Likewise of the call of the superclass's constructor, which may be absent.
pub fn super_law()
    ensures { SuperLaw }
{}

/// A walk over the nodes of a tree by the numbers of their parts sees exactly the nodes on paths, each in its scope.
pub fn walk_law()
    ensures { WalkLaw }
{}

/// The code of statements one after another is that of their list.
pub fn all_law()
    ensures { AllLaw }
{}
