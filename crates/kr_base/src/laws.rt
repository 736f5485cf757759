// Theorems about cuts, spans and entries.
ghost use Rattle.kr_base.specs.Cuts.{OrderLaw};
ghost use Rattle.kr_base.specs.Entries.{ResumptionLaw};
ghost use Rattle.kr_base.specs.Inside.{InsideLaw};
ghost use Rattle.kr_base.specs.Parsing.{OneReading, ReadingLaw, RoundTrip};

/// The recursive order `Before` and the lexicographic comparison agree.
#[tactic(auto, using(crate::proofs::Orders::order))]
pub fn order_law()
    ensures { OrderLaw }
{}

/// Splitting a span in two keeps its entries, if none in the first part ran out of fuel.
pub fn resumption_law<R>()
    ensures { ResumptionLaw R }
{}

/// The cut at which a remainder is split is above its mark and below its bound.
pub fn inside_law()
    ensures { InsideLaw }
{}

/// Parsing is computable and unique, and undoes writing.
pub fn reading_law()
    ensures computed { ReadingLaw }
    ensures one { OneReading }
    ensures round_trip { RoundTrip }
{}
