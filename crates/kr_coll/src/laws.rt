// Members added only if absent form a set.
ghost use Rattle.kr_coll.specs.Laws.{SetLaw};

/// Adding and removing keep members distinct, and the members are exactly those added and not removed.
#[tactic(auto, using(crate::proofs::Sets::set_law))]
pub fn set_law()
    ensures { SetLaw }
{}
