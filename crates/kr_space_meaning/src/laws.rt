// Laws of the definitions: problems of documents that break no rule, and small ones worked by hand.
ghost use Rattle.kr_space_meaning.specs.Laws.{WellFormedLaw, LeastLaw};
ghost use Rattle.kr_space_meaning.specs.DomainExamples.{DomainProblems, DomainRefusals};
ghost use Rattle.kr_space_meaning.specs.LongExamples.{LongProblems, LongRefusals};
ghost use Rattle.kr_space_meaning.specs.Examples.{Problems, Refusals, CloseRefusals, Sizes};

/// The problem of a document that breaks no rule is well formed: the root has a class domain, no slot's domain is empty,
/// no plain value is a reference, and each object has its fields, or its length and its elements.
pub fn well_formed_law()
    ensures { WellFormedLaw }
{}

/// The fault that is named is the least of all: the least rule, and of one rule the least item.
#[tactic(auto, using(kr_fin::proofs::Leasts::least_of_all))]
pub fn least_law()
    ensures { LeastLaw }
{}

/// The problems of small sources and documents, worked by hand.
#[tactic(auto, using(crate::proofs::Examples::problems, crate::proofs::DomainExamples::domain_problems, crate::proofs::LongExamples::long_problems))]
pub fn worked_problems()
    ensures plain { Problems }
    ensures domains { DomainProblems }
    ensures numbers { LongProblems }
{}

/// The rules that small documents break first, worked by hand.
#[tactic(auto, using(crate::proofs::Examples::refusals, crate::proofs::Examples::close_refusals, crate::proofs::Examples::sizes, crate::proofs::DomainExamples::domain_refusals, crate::proofs::LongExamples::long_refusals))]
pub fn worked_refusals()
    ensures plain { Refusals }
    ensures close { CloseRefusals }
    ensures sizes { Sizes }
    ensures domains { DomainRefusals }
    ensures numbers { LongRefusals }
{}
