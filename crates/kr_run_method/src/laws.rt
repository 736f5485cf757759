// Laws of the fuel of every run.
ghost use Rattle.kr_run_method.specs.Costs.{EvaluatedSpentLaw, SpentLaw};

/// A run of a method that isn't spent with some fuel has a cost: it is spent exactly where that is above the fuel, and with more
/// fuel it ends the same, and leaves the same heap and so much more fuel.
pub fn spent_law()
    ensures { SpentLaw }
{}

/// So has an expression of a contract.
pub fn evaluated_spent_law()
    ensures { EvaluatedSpentLaw }
{}
