// Theorems on the typing rules.
ghost use Rattle.kr_types_meaning.specs.Laws.{WellTypedLaw, TypesLaw};
ghost use Rattle.kr_types_meaning.specs.Examples.{Worked};
ghost use Rattle.kr_types_meaning.specs.Exceptions.{Worked as Exceptions};
ghost use Rattle.kr_types_meaning.specs.Meanings.{Meanings};

/// A program is well typed exactly where none of its nodes is the first broken one.
#[tactic(auto, using(crate::proofs::WellTyped::well_typed_law))]
pub fn well_typed_law()
    ensures { WellTypedLaw }
{}

/// A type's node has the type that the class table reads from it.
#[tactic(auto, using(crate::proofs::Types::types_law))]
pub fn types_law()
    ensures { TypesLaw }
{}

/// For each rule sources that break it first and sources beside them that don't.
#[tactic(auto, using(crate::proofs::Examples::worked))]
pub fn worked_examples()
    ensures { Worked }
{}

/// The meaning of names, types and constants in a family of classes.
#[tactic(auto, using(crate::proofs::Meanings::meanings))]
pub fn worked_meanings()
    ensures { Meanings }
{}

/// Sources with `throw`, `try` and `signals`, and the first rule that each breaks.
#[tactic(auto, using(crate::proofs::Exceptions::worked))]
pub fn worked_exceptions()
    ensures { Exceptions }
{}
