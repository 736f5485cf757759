// Expressions of a typed program.
ghost use Rattle.kr_laws_safety.specs.Values.{ValuesLaw};

/// In a program of which typing gives what runs rely on, an expression without broken nodes gives a value of each type that it may
/// be used as, and isn't stuck, where that holds of the expressions and statements that it runs.
pub fn values_law()
    ensures { ValuesLaw }
{}
