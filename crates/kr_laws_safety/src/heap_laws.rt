// Laws of the heaps of candidates.
ghost use Rattle.kr_laws_safety.specs.KeepTypes.{StepsLaw};
ghost use Rattle.kr_laws_safety.specs.Vectors.{VectorsLaw};

/// Where domains are of their slots' types, each vector spells a heap whose objects are of their types.
pub fn vectors_law()
    ensures { VectorsLaw }
{}

/// Each step of the meaning keeps types: on values, locals and a heap of their types it isn't stuck, and what it gives and
/// leaves is of its types.
pub fn steps_law()
    ensures { StepsLaw }
{}
