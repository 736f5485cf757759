// Which types expressions have.
ghost use Rattle.kr_laws_types.specs.Expressions.{ExpressionsLaw};

/// An expression without broken nodes is of a type that expressions have at its position, and it writes a place.
pub fn expressions_law()
    ensures { ExpressionsLaw }
{}
