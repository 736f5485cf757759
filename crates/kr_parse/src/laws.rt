// Theorems on the parser's results.
ghost use Rattle.kr_parse.specs.Refusals.{OneRefusal, ParsedUnbroken};

/// Tokens break at most one rule first, at one place, and none where they have a tree.
pub fn one_refusal_law()
    ensures one { OneRefusal }
    ensures unbroken { ParsedUnbroken }
{}
