// Expressions that don't name a method's result don't depend on it.
ghost use Rattle.kr_run_method.specs.Results.{RunsLaw, TypedLaw};

/// An expression without `\result` has in a method without result the type and the broken nodes that it has in any other.
pub fn typed_law()
    ensures { TypedLaw }
{}

/// And it runs there as in any other.
pub fn runs_law()
    ensures { RunsLaw }
{}
