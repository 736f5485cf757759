// Types don't depend on loops.
ghost use Rattle.kr_laws_types.specs.Running.{LoopsLaw, RunningLaw};

/// In a loop or not, and in a field's initial value or not, a tree has the same type and leaves the same scope.
pub fn loops_law()
    ensures { LoopsLaw }
{}

/// By the scope that code runs in, expressions have the types that typing finds.
pub fn running_law()
    ensures { RunningLaw }
{}
