// The operators' results at the limits of `int`.
ghost use Rattle.kr_classes_operators.specs.Worked.{WorkedOperators};

/// Operators on values, worked by hand.
#[tactic(auto, using(crate::proofs::Worked::worked_operators))]
pub fn worked_operators()
    ensures { WorkedOperators }
{}
