// The contract of the method under test.
ghost use Rattle.std.specs.Prelude.{◌<◌, IfOk, length};
ghost use Rattle.kr_judge_code.specs.Vocabulary.{all_methods, AreMemberNodes, AreNumbers, CodeMade, Final, IsContractOf, IsFound, IsPosed, IsTestedBy, method_numbered, numbering_of, posed, table, tested_method};
ghost use Rattle.kr_judge_code.specs.Compiled.{HasMethods};

use crate::add_after_body;
use kr_base::NoMemory;
use kr_classes_table::MethodId;
use kr_code_lowering::{NodeNumbers, Site};
use kr_code_members::MemberNodes;
use kr_judge_prepared::Contract;
use kr_space_problem::Problem;
use std::alloc::Global;

/// The contract of the method of a number.
fn contract_of(
    alloc: Global,
    problem: &Problem,
    numbers: &NodeNumbers,
    members: &MemberNodes,
    method: MethodId,
) -> Result<Contract, NoMemory>
    requires posed { IsPosed problem.now }
    requires numbers { AreNumbers problem.now.program numbers.now }
    requires members { AreMemberNodes problem.now.program members.now }
    requires method { method < length (all_methods (table problem.now.program)) }
    ensures { (final : Final) (code : CodeMade) → HasMethods problem.now code → IfOk result (IsContractOf (posed problem.now).program code (numbering_of problem.now.program final) (method_numbered (table problem.now.program) method)) }
{
    let program = &problem.program;
    let declared = members.methods[method as usize];
    let lines = Site::of(program, declared.file, declared.contracts);
    let olds = Vec::new(alloc);
    let postconditions = Vec::new(alloc);
    let signals = Vec::new(alloc);
    let mut contract = Contract {
        method,
        olds,
        postconditions,
        signals,
    };
    add_after_body(alloc, program, numbers, lines, &mut contract)?;
    Ok(contract)
}

/// The contract of the method under test, where one is tested.
pub(crate) fn tested_contract(
    alloc: Global,
    problem: &Problem,
    numbers: &NodeNumbers,
    members: &MemberNodes,
    tested: Option<MethodId>,
) -> Result<Option<Contract>, NoMemory>
    requires posed { IsPosed problem.now }
    requires numbers { AreNumbers problem.now.program numbers.now }
    requires members { AreMemberNodes problem.now.program members.now }
    requires tested { IsFound problem.now.program tested (tested_method (posed problem.now) (posed problem.now).mode) }
    ensures { (final : Final) (code : CodeMade) → HasMethods problem.now code → IfOk result (IsTestedBy (posed problem.now).program code (numbering_of problem.now.program final) (tested_method (posed problem.now) (posed problem.now).mode)) }
{
    match tested {
        None => Ok(None),
        Some(method) => {
            let contract = contract_of(alloc, problem, numbers, members, method)?;
            Ok(Some(contract))
        }
    }
}
