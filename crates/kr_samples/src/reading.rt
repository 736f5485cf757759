// A problem that is read from one source and its finitization, to be listed or to be tested.
ghost use Rattle.std.specs.Prelude.{◌≤◌, IfOk, length};
ghost use Rattle.kr_code_members.specs.Nodes.{AreShaped};
ghost use Rattle.kr_judge_prepared.specs.Accepting.{IsAccepted};
ghost use Rattle.kr_mean.specs.Problem.{slots};
ghost use Rattle.kr_mean.specs.WellFormed.{IsWellFormed};
ghost use Rattle.kr_space_meaning.specs.Limits.{IsWithinLimits};
ghost use Rattle.kr_space_problem.specs.Posed.{IsPosed, posed};
ghost use Rattle.kr_space_problem.specs.Subjects.{IsSubject};
ghost use Rattle.kr_types.specs.Programs.{IsProgram};

use kr_base::NoMemory;
use kr_fin::{FinDoc, read_fin};
use kr_judge_code::problem_code;
use kr_judge_prepared::{Accepted, Prepared};
use kr_mean::{MethodName, Mode};
use kr_pure::pure;
use kr_sources::{Unread, program_of};
use kr_space::{limits_law, problem};
use kr_space_problem::{Problem, Subject};
use kr_types::Program;
use std::alloc::Global;

/// The problem of a program and a document.
fn spaced(alloc: Global, program: Program, document: &FinDoc, mode: Mode) -> Result<Problem, Unread>
    requires program { IsProgram program }
    requires limits { IsWithinLimits document.now }
    requires shaped { AreShaped program }
    ensures shaped { IfOk result (λ p. AreShaped p.program) }
    ensures posed { IfOk result IsPosed }
    ensures well_formed { IfOk result (λ p. IsWellFormed (posed p)) }
    ensures small { IfOk result (λ p. length (slots (posed p)) ≤ 4096) }
{
    match problem(alloc, program, document, mode) {
        Ok(problem) => Ok(problem),
        Err(_) => Err(Unread::Refused),
    }
}

/// The problem of a program and the bytes of a finitization.
fn finitized(alloc: Global, program: Program, fin: &str, mode: Mode) -> Result<Problem, Unread>
    requires program { IsProgram program }
    requires shaped { AreShaped program }
    ensures shaped { IfOk result (λ p. AreShaped p.program) }
    ensures posed { IfOk result IsPosed }
    ensures well_formed { IfOk result (λ p. IsWellFormed (posed p)) }
    ensures small { IfOk result (λ p. length (slots (posed p)) ≤ 4096) }
{
    limits_law();
    match read_fin(alloc, fin.as_bytes()) {
        Ok(document) => spaced(alloc, program, &document, mode),
        Err(_) => Err(Unread::Refused),
    }
}

/// The subject of a problem, if it is pure.
fn purified(alloc: Global, problem: &Problem) -> Result<Subject, Unread>
    requires shaped { AreShaped problem.now.program }
    requires posed { IsPosed problem.now }
    requires well_formed { IsWellFormed (posed problem.now) }
    requires small { length (slots (posed problem.now)) ≤ 4096 }
    ensures accepted { IfOk result (λ subject. IsAccepted problem.now) }
    ensures subject { IfOk result (IsSubject problem.now) }
{
    match pure(alloc, problem) {
        Ok(subject) => Ok(subject),
        Err(_) => Err(Unread::Refused),
    }
}

fn accepted(alloc: Global, source: &str, fin: &str, mode: Mode) -> Result<Accepted, Unread> {
    let program = program_of(alloc, source)?;
    let problem = finitized(alloc, program, fin, mode)?;
    let subject = purified(alloc, &problem)?;
    Ok(Accepted::new(problem, subject))
}

fn prepared_of(alloc: Global, accepted: Accepted) -> Result<Prepared, NoMemory> {
    let code = problem_code(alloc, &accepted)?;
    Prepared::new(alloc, accepted, code)
}

fn prepared(alloc: Global, source: &str, fin: &str, mode: Mode) -> Result<Prepared, Unread> {
    let accepted = accepted(alloc, source, fin, mode)?;
    let prepared = prepared_of(alloc, accepted)?;
    Ok(prepared)
}

/// The problem of a source and a finitization, to be listed.
pub fn read(alloc: Global, source: &str, fin: &str) -> Result<Prepared, Unread> {
    prepared(alloc, source, fin, Mode::List)
}

fn named(alloc: Global, method: &str) -> Result<Mode, NoMemory> {
    let text = String::from_str(alloc, method)?;
    Ok(Mode::Method(MethodName::new(text)))
}

/// The problem of a source and a finitization, whose method of a name is tested.
pub fn read_test(alloc: Global, source: &str, fin: &str, method: &str) -> Result<Prepared, Unread> {
    let mode = named(alloc, method)?;
    prepared(alloc, source, fin, mode)
}
