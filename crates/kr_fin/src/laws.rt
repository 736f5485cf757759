// Laws of the definitions of a finitization.
ghost use Rattle.kr_fin.specs.Laws.{LeastLaw, ItemLaw};

/// The fault that is named is the least of all: the least rule, and of one rule the least item.
#[tactic(auto, using(crate::proofs::Leasts::least_of_all))]
pub fn least_law()
    ensures { LeastLaw }
{}

/// Nothing that a domain states is lost, where it breaks no rule.
#[tactic(auto, using(crate::proofs::Items::one_item))]
pub fn item_law()
    ensures { ItemLaw }
{}
