// Laws of the class rules.
ghost use Rattle.kr_laws_never_stuck.specs.ClassRules.{ClassRulesLaw};

/// In a program whose classes break no class rule, lines of classes are whole, a field is at one place of all objects that have
/// it, and an overriding method has the same parameters and a result that may replace the other's.
pub fn class_rules_law()
    ensures { ClassRulesLaw }
{}
