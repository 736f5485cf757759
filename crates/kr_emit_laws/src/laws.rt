// Builders beside their sources.
ghost use Rattle.kr_emit_laws.specs.Beside.{RunLaw};
ghost use Rattle.kr_emit_laws.specs.Laws.{BuildersLaw};
ghost use Rattle.kr_emit_laws.specs.Worked.{WorkedCall, WorkedKinds, WorkedNodes};

/// Beside accepted sources a call of a builder gives the root of its row's structure, and leaves the structure's objects.
pub fn run_law()
    ensures { RunLaw }
{}

/// The builders of a listing, read back, break no rule, and each builds the structure of its row.
pub fn builders_law()
    ensures { BuildersLaw }
{}

/// Heaps of a list, and of a structure with each kind of value; the call that builds the list.
pub fn worked_calls()
    ensures nodes { WorkedNodes }
    ensures kinds { WorkedKinds }
    ensures call { WorkedCall }
{}
