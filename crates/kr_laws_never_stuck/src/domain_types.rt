// Which values the domains of a problem have.
ghost use Rattle.kr_laws_never_stuck.specs.DomainTypes.{DomainTypesLaw};

/// The problem of a document that breaks no rule gives each slot values of its type, where the document's keys are pairs and its
/// numbers are within their limits, and each field and parameter is what its key means.
pub fn domain_types_law()
    ensures { DomainTypesLaw }
{}
