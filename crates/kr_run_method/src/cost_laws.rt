// Laws of the fuel of every run.
ghost use Rattle.kr_run_method.specs.CostLaws.{CostLaw, ValueCostLaw};

/// A method's run that isn't spent with some fuel has a cost: it is spent exactly where there is less fuel, has nothing left where
/// there is just so much, and with more it ends the same, leaves the same, and has so much more fuel left.
pub fn cost_law()
    ensures { CostLaw }
{}

/// So has an expression's.
pub fn value_cost_law()
    ensures { ValueCostLaw }
{}
