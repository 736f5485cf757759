// The nodes of what has to hold.
ghost use Rattle.std.specs.Prelude.{◌≡◌, ◌<◌, ◌++◌, IfOk, length, map};
ghost use Rattle.kr_judge_code.specs.Vocabulary.{all_methods, AreMemberNodes, AreNumbers, coded_count, conditions, Final, IsFound, IsPosed, method_numbered, numbering_of, others_from, posed, requires_of, table, tested_method};
ghost use Rattle.kr_judge_code.specs.Compiled.{call_nodes};

use crate::add_required;
use kr_base::NoMemory;
use kr_classes_table::MethodId;
use kr_code_lowering::{NodeNumbers, Site};
use kr_code_members::MemberNodes;
use kr_space_problem::Problem;
use std::alloc::Global;

/// Adds the preconditions of the method of a number.
fn add_preconditions(
    problem: &Problem,
    numbers: &NodeNumbers,
    members: &MemberNodes,
    method: MethodId,
    conditions: &mut Vec<u32>,
) -> Result<(), NoMemory>
    requires posed { IsPosed problem.now }
    requires numbers { AreNumbers problem.now.program numbers.now }
    requires members { AreMemberNodes problem.now.program members.now }
    requires method { method < length (all_methods (table problem.now.program)) }
    ensures { (final : Final) → IfOk result (λ none. map (numbering_of problem.now.program final).origin conditions.new.items ≡ map (numbering_of problem.now.program final).origin conditions.old.items ++ requires_of (posed problem.now).program (method_numbered (table problem.now.program) method)) }
{
    let program = &problem.program;
    let declared = members.methods[method as usize];
    let lines = Site::of(program, declared.file, declared.contracts);
    add_required(program, numbers, lines, conditions)
}

/// The nodes of the conditions, where the call of the root's `repOk` is the first one after those of the files.
pub(crate) fn conditions(
    alloc: Global,
    problem: &Problem,
    numbers: &NodeNumbers,
    members: &MemberNodes,
    tested: Option<MethodId>,
) -> Result<Vec<u32>, NoMemory>
    requires posed { IsPosed problem.now }
    requires numbers { AreNumbers problem.now.program numbers.now }
    requires members { AreMemberNodes problem.now.program members.now }
    requires tested { IsFound problem.now.program tested (tested_method (posed problem.now) (posed problem.now).mode) }
    ensures { (final : Final) → final.nodes ≡ call_nodes problem.now → coded_count problem.now.program < others_from problem.now.program → IfOk result (λ nodes. map (numbering_of problem.now.program final).origin nodes.items ≡ conditions (posed problem.now)) }
{
    let mut conditions = Vec::new(alloc);
    conditions.push(numbers.coded)?;
    match tested {
        None => Ok(conditions),
        Some(method) => {
            add_preconditions(problem, numbers, members, method, &mut conditions)?;
            Ok(conditions)
        }
    }
}
