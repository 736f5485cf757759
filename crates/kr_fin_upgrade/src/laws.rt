// What holds of written documents.
ghost use Rattle.kr_fin_upgrade.specs.Documents.{ReadLaw, WrittenLaw};
ghost use Rattle.kr_fin_upgrade.specs.Examples.{Carried, Tables};
ghost use Rattle.kr_fin_upgrade.specs.Laws.{UpgradeLaw};

/// A document that was read breaks no rule of its own.
pub fn read_law()
    ensures { ReadLaw }
{}

/// What is written of a document that breaks no rule of its own is read as the document.
#[tactic(auto, using(crate::proofs::Written::written))]
pub fn written_law()
    ensures { WrittenLaw }
{}

/// Carried over to version 2, a document that is accepted beside some files is accepted, with the same problem.
pub fn upgrade_law()
    ensures { UpgradeLaw }
{}

/// Documents carried over to version 2, and the tables that documents are written as, worked by hand.
#[tactic(auto, using(crate::proofs::Examples::carried, crate::proofs::Examples::tables))]
pub fn worked_law()
    ensures carried { Carried }
    ensures tables { Tables }
{}
