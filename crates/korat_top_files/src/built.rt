// The work of `emit`: that of a listing, and whether builders can be written for its problem.
ghost use Rattle.std.specs.Prelude.{◌≤◌, length};
ghost use Rattle.kr_args.specs.Definition.{MOST_SOURCES};
ghost use Rattle.korat_top_files.specs.Builds.{FindsBuilds, StopsUnbuilt};
ghost use Rattle.korat_top_files.specs.Found.{CountStays};
ghost use Rattle.korat_top_files.specs.Refusals.{files_of};

use crate::find::find_files;
use crate::refusal::{Refusal, Stop};
use crate::rules::{CallRule, SourceRule};
use kr_args::forms::Ask;
use kr_emit::{BuildRefusal, buildable};
use kr_io::Files;
use kr_judge_prepared::Accepted;
use kr_mean::Mode;
use std::alloc::Global;

/// Why the work stops where builders can't be written.
fn stop_of(refusal: BuildRefusal) -> Stop
    ensures { StopsUnbuilt refusal result }
{
    match refusal {
        BuildRefusal::Construction { place } => Stop::Refused(CallRule::Construction.at(place)),
        BuildRefusal::ClassName { place } => Stop::Refused(CallRule::ClassName.at(place)),
        BuildRefusal::Elements { item } => Stop::Refused(Refusal::Finitization {
            rule: "E3",
            item,
        }),
        BuildRefusal::NoMemory(why) => Stop::Memory(why),
    }
}

/// Reads files, the finitization first, and judges them as those of a listing; and whether builders can be written for its
/// structures.
pub fn find_built<F: Files>(alloc: Global, ask: &Ask, files: &mut F) -> Result<Accepted, Stop>
    requires few { length ask.now.sources ≤ MOST_SOURCES }
    ensures found { FindsBuilds F.held F.faults F.last (files_of ask.now.fin ask.now.sources) files.old files.new result }
    ensures count { CountStays (F.faults files.old) (F.faults files.new) result }
{
    let found = match find_files(alloc, Mode::List, ask.fin.as_str(), &ask.sources, files) {
        Ok(found) => found,
        Err(stop) => return Err(stop),
    };
    match buildable(alloc, &found) {
        Ok(()) => Ok(found),
        Err(refusal) => Err(stop_of(refusal)),
    }
}
