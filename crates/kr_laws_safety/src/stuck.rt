// No run of a typed program is stuck.
ghost use Rattle.kr_laws_safety.specs.Stuck.{CandidatesLaw, CodeLaw, TestsLaw};

/// In a program of which typing gives what runs rely on, expressions without broken nodes give values of the types that they are
/// used as, statements lead on only as they may, and neither is ever stuck.
pub fn code_law()
    ensures { CodeLaw }
{}

/// Where the predicate and the preconditions are typed too, and the domains are of their slots' types, no candidate's run is
/// stuck.
pub fn candidates_law()
    ensures { CandidatesLaw }
{}

/// No test of a method on a candidate is stuck either: the values of its `\old`s, its body, the predicate after it, its
/// postconditions.
pub fn tests_law()
    ensures { TestsLaw }
{}
