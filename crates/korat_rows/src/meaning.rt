// The worked rows.
ghost use Rattle.korat_rows.specs.Constructs.{Constructs};
ghost use Rattle.korat_rows.specs.Exceptions.{Worked as Exceptions};
ghost use Rattle.korat_rows.specs.Listings.{Listings};
ghost use Rattle.korat_rows.specs.Examples.{Worked};
ghost use Rattle.korat_rows.specs.Tests.{Tests};
ghost use Rattle.korat_rows.specs.Renamings.{Renamings};

/// Each construct of the language: what it gives, what it costs, and what it reads.
#[tactic(auto, using(crate::proofs::Constructs::constructs))]
pub fn worked_constructs()
    ensures { Constructs }
{}

/// What is thrown, and by whom it is caught.
#[tactic(auto, using(crate::proofs::Exceptions::worked))]
pub fn worked_exceptions()
    ensures { Exceptions }
{}

/// The entries of small problems.
#[tactic(auto, using(crate::proofs::Listings::listings))]
pub fn worked_listings()
    ensures { Listings }
{}

/// The entries and runs of more small problems, whose trees are built by name.
#[tactic(auto, using(crate::proofs::Examples::worked))]
pub fn worked_examples()
    ensures { Worked }
{}

/// Each verdict of a test, and how objects are made.
#[tactic(auto, using(crate::proofs::Tests::tests))]
pub fn worked_tests()
    ensures { Tests }
{}

/// A candidate under other names.
#[tactic(auto, using(crate::proofs::Renamings::renamings))]
pub fn worked_renamings()
    ensures { Renamings }
{}
