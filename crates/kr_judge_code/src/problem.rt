// The code of a problem.
ghost use Rattle.std.specs.Prelude.{IfOk};
ghost use Rattle.kr_judge_code.specs.Vocabulary.{AreNumbers, IsCodeFor, IsPosed, IsSubject, posed};

use crate::code::code_of;
use crate::predicate::conditions;
use crate::root::tested_method;
use crate::tested::tested_contract;
use kr_base::NoMemory;
use kr_code_lowering::NodeNumbers;
use kr_judge::Predicate;
use kr_judge_prepared::{Accepted, ProblemCode};
use kr_space_problem::{Problem, Subject};
use std::alloc::Global;

/// The code of a problem, by the numbers of its nodes and its subject.
fn code_with(
    alloc: Global,
    problem: &Problem,
    numbers: &NodeNumbers,
    subject: &Subject,
) -> Result<ProblemCode, NoMemory>
    requires posed { IsPosed problem.now }
    requires numbers { AreNumbers problem.now.program numbers.now }
    requires subject { IsSubject problem.now subject.now }
    ensures { IfOk result (IsCodeFor (posed problem.now)) }
{
    let tested = tested_method(problem, subject);
    let conditions = conditions(alloc, problem, numbers, &subject.members, tested)?;
    let contract = tested_contract(alloc, problem, numbers, &subject.members, tested)?;
    let code = code_of(alloc, problem, numbers, subject)?;
    Ok(ProblemCode {
        predicate: Predicate { code, conditions },
        contract,
    })
}

/// The code of a problem, by its subject.
fn code_by(alloc: Global, problem: &Problem, subject: &Subject) -> Result<ProblemCode, NoMemory>
    requires posed { IsPosed problem.now }
    requires subject { IsSubject problem.now subject.now }
    ensures { IfOk result (IsCodeFor (posed problem.now)) }
{
    let numbers = NodeNumbers::of(alloc, &problem.program)?;
    code_with(alloc, problem, &numbers, subject)
}

/// The code of an accepted problem's predicate, and the contract of its method under test, where one is tested.
pub fn problem_code(alloc: Global, accepted: &Accepted) -> Result<ProblemCode, NoMemory>
    ensures { IfOk result (IsCodeFor (posed accepted.now)) }
{
    code_by(alloc, accepted.problem(), accepted.subject())
}
