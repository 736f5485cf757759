// Theorems about every source.
ghost use Rattle.kr_lex.specs.Spells.{OneListLaw};
ghost use Rattle.kr_lex.specs.Broken.{UnbrokenLaw};

/// A source has at most one list of tokens.
pub fn one_list_law()
    ensures { OneListLaw }
{}

/// A source that has a list of tokens breaks no lexical rule.
pub fn unbroken_law()
    ensures { UnbrokenLaw }
{}
