// Builders and rules, worked out.
ghost use Rattle.kr_emit_meaning.specs.Worked.{WorkedKinds, WorkedNodes, WorkedRules};

/// Builders of a list, and of a structure with each kind of value.
pub fn worked_builders()
    ensures nodes { WorkedNodes }
    ensures kinds { WorkedKinds }
{}

/// What breaks the rules, and what doesn't.
pub fn worked_rules()
    ensures { WorkedRules }
{}
