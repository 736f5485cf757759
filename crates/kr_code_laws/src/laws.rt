// The meaning of resolved code.
ghost use Rattle.kr_code_laws.specs.Laws.{ResolvedLaw};

/// The meaning of a program is a meaning of its code, and methods run as their code does.
pub fn resolved_law()
    ensures { ResolvedLaw }
{}
