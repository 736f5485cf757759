// What holds of every scan, and of entries with their rows made into others.
ghost use Rattle.kr_survey.specs.Mapping.{MappedLaw};
ghost use Rattle.kr_survey.specs.Scans.{ScanLaw};

/// A scan of ascending entries walks all of them up to where it stops.
pub fn scan_law<R>()
    ensures { ScanLaw R }
{}

/// The entries of a span, their rows and their number are those of the survey.
pub fn mapped_law<R, T>()
    ensures { MappedLaw R T }
{}
