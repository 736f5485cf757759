// Expressions without broken nodes have types.
ghost use Rattle.kr_laws_types.specs.Typed.{TypedLaw};

/// An expression without broken nodes has a type.
pub fn typed_law()
    ensures { TypedLaw }
{}
