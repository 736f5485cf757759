// Premises, met by small problems.
ghost use Rattle.korat_rows.specs.Calls.{Calls};
ghost use Rattle.korat_rows.specs.Premises.{Premises};

/// Small problems meet the premises of the laws on listings, one with subclasses, one with an array, one with collections and a test
/// among them; and for each kind of node that touches a candidate there is one that isn't pure.
#[tactic(auto, using(crate::proofs::Premises::premises))]
pub fn worked_premises()
    ensures { Premises }
{}

/// A call and two expressions of a contract are as the laws on runs of methods ask, so that these runs aren't stuck; and three calls
/// with other values aren't.
#[tactic(auto, using(crate::proofs::Calls::calls))]
pub fn worked_calls()
    ensures { Calls }
{}
