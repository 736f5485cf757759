// Whether builders can be written for a problem.
ghost use Rattle.std.specs.Prelude.{◌≡◌, ◌<◌, IfErr, IfOk, None, length};
ghost use Rattle.kr_emit.specs.Vocabulary.{build_fault, E1, E2, fault_at, IsPosed, least, posed};
ghost use Rattle.kr_emit.specs.Refusals.{Refuses};

use crate::class_name::class_name_place;
use crate::construction::construction_place;
use crate::elements::first_elements;
use crate::refusal::BuildRefusal;
use kr_base::{NoMemory, Place};
use kr_judge_prepared::Accepted;
use kr_space_problem::Problem;
use std::alloc::Global;

/// The first place at which E1 is broken.
fn construction_in(problem: &Problem) -> Result<Option<Place>, NoMemory>
    requires posed { IsPosed problem.now }
    requires few { length problem.now.layout.domains < 4294967296 }
    ensures { IfOk result (λ place. fault_at 1 place ≡ least (E1 (posed problem.now))) }
{
    let trees = problem.program.trees.as_slice();
    let members = &problem.program.table.members;
    let count = members.len();
    let Ok(classes) = u32::try_from(count) else {
        return Err(members.at_limit());
    };
    Ok(construction_place(trees, members, &problem.layout, classes))
}

/// The first place at which E2 is broken.
fn class_name_in(problem: &Problem) -> Option<Place>
    requires { IsPosed problem.now }
    ensures { fault_at 2 result ≡ least (E2 (posed problem.now)) }
{
    class_name_place(
        problem.program.trees.as_slice(),
        &problem.program.table.heads,
    )
}

/// Whether E3 holds, where E1 and E2 do.
fn judge_elements(alloc: Global, problem: &Problem, domains: u32) -> Result<(), BuildRefusal>
    requires posed { IsPosed problem.now }
    requires all { domains ≡ length problem.now.layout.domains }
    requires construction { least (E1 (posed problem.now)) ≡ None }
    requires name { least (E2 (posed problem.now)) ≡ None }
    ensures built { IfOk result (λ done. build_fault (posed problem.now) ≡ None) }
    ensures refused { IfErr result (Refuses (posed problem.now)) }
{
    match first_elements(alloc, problem, domains) {
        Err(why) => Err(BuildRefusal::NoMemory(why)),
        Ok(None) => Ok(()),
        Ok(Some(fault)) => Err(BuildRefusal::Elements { item: fault.item }),
    }
}

/// Whether E2 and E3 hold, where E1 does.
fn judge_names(alloc: Global, problem: &Problem, domains: u32) -> Result<(), BuildRefusal>
    requires posed { IsPosed problem.now }
    requires all { domains ≡ length problem.now.layout.domains }
    requires construction { least (E1 (posed problem.now)) ≡ None }
    ensures built { IfOk result (λ done. build_fault (posed problem.now) ≡ None) }
    ensures refused { IfErr result (Refuses (posed problem.now)) }
{
    match class_name_in(problem) {
        Some(place) => Err(BuildRefusal::ClassName { place }),
        None => judge_elements(alloc, problem, domains),
    }
}

/// Whether E1 to E3 hold.
fn judge(alloc: Global, problem: &Problem, domains: u32) -> Result<(), BuildRefusal>
    requires posed { IsPosed problem.now }
    requires all { domains ≡ length problem.now.layout.domains }
    ensures built { IfOk result (λ done. build_fault (posed problem.now) ≡ None) }
    ensures refused { IfErr result (Refuses (posed problem.now)) }
{
    match construction_in(problem) {
        Err(why) => Err(BuildRefusal::NoMemory(why)),
        Ok(None) => judge_names(alloc, problem, domains),
        Ok(Some(place)) => Err(BuildRefusal::Construction { place }),
    }
}

/// Whether builders can be written for a problem; else the least rule that it breaks, at the first place or the least item.
pub fn buildable(alloc: Global, accepted: &Accepted) -> Result<(), BuildRefusal>
    ensures built { IfOk result (λ done. build_fault (posed accepted.now) ≡ None) }
    ensures refused { IfErr result (Refuses (posed accepted.now)) }
{
    let problem = accepted.problem();
    let count = problem.layout.domains();
    let Ok(domains) = u32::try_from(count) else {
        return Err(BuildRefusal::NoMemory(problem.layout.at_domain_limit()));
    };
    judge(alloc, problem, domains)
}
