// Laws of the rules of whole programs.
ghost use Rattle.kr_laws_never_stuck.specs.WellTyped.{RunsLaw, WellTypedProgramsLaw};

/// In files of the grammar's shape that break no class rule and no typing rule, and no two of whose fields are at one place,
/// each field, constant, method, constructor and initial value is as runs rely on.
pub fn well_typed_programs_law()
    ensures { WellTypedProgramsLaw }
{}

/// On no candidate of a problem of such a program is a run stuck, nor a part of a test, where the predicate and the contract are
/// typed and the domains are of their slots' types.
pub fn runs_law()
    ensures { RunsLaw }
{}
