// A class more, and the builders' methods.
ghost use Rattle.kr_emit_laws.specs.TypingBeside.{BesideLaw, FitLaw};
ghost use Rattle.kr_emit_laws.specs.Fitting.{MethodsLaw};
ghost use Rattle.kr_emit_laws.specs.OneMore.{OneMoreLaw};

/// Behind accepted files a class that has only methods, of a name that no class has, breaks no class rule; and no typing rule is
/// broken where none is in its members.
pub fn one_more_law()
    ensures { OneMoreLaw }
{}

/// Builders whose lines fit have no broken node.
pub fn methods_law()
    ensures { MethodsLaw }
{}

/// Beside the sources of their problem builders break no class rule, and no typing rule where their lines fit.
pub fn beside_law()
    ensures { BesideLaw }
{}

/// Lines that fit beside the classes of the sources fit beside the builders' class too.
pub fn fit_law()
    ensures { FitLaw }
{}
