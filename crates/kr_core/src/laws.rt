// Laws of every run of the machine.
ghost use Rattle.kr_core.specs.Kept.{KeptLaw};
ghost use Rattle.kr_core.specs.Counts.{CountingLaw};
ghost use Rattle.kr_core.specs.Rows.{RowsLaw};
ghost use Rattle.kr_core.specs.Logs.{ReplayLaw, GrowthLaw};
ghost use Rattle.kr_core.specs.Leases.{OwnersLaw, LeasesLaw, ExclusiveLaw};
ghost use Rattle.kr_core.specs.Examples.{WorkedRun};

/// Whatever events step, in whatever order: segments adjoin from the first to the end, and their numbers differ.
pub fn kept_law()
    ensures { KeptLaw }
{}

/// However workers cut, steal and report: each entry is counted once.
pub fn counting_law<R>()
    ensures { CountingLaw R }
{}

/// However workers cut, steal and report, and whenever rows are drained: the rows are those of the entries counted.
pub fn rows_law<R>()
    ensures { RowsLaw R }
{}

/// The state that steps lead to is what their events replay to.
pub fn replay_law()
    ensures { ReplayLaw }
{}

/// A log of honest events grows by an honest event at its end.
pub fn growth_law<R>()
    ensures { GrowthLaw R }
{}

/// A segment's owner and its end are those that the log says: who took it or stole it last, where it was cut last.
pub fn owners_law()
    ensures { OwnersLaw }
{}

/// A lease that is answered is the seat's, of the segment as it is then.
pub fn leases_law()
    ensures { LeasesLaw }
{}

/// The seat of a lease may report and give up what it is of, and nobody else may, nor take it.
pub fn exclusive_law()
    ensures { ExclusiveLaw }
{}

/// A run of eleven events, worked by hand.
pub fn worked_run()
    ensures { WorkedRun }
{}
