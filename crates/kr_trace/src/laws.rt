// Small texts, checked by hand.
ghost use Rattle.kr_trace.specs.Worked.{WorkedTraces};

/// The results of checking small texts.
pub fn worked_traces()
    ensures { WorkedTraces }
{}
