// The entries of the roots: the root's `repOk`, and the conditions of the method under test.
ghost use Rattle.std.specs.Prelude.{◌≡◌, ◌<◌, ◌++◌, List, IfOk, IfSome, length, option_map, option_to_list, flat_map};
ghost use Rattle.kr_classes_table.specs.Types.{JavaType};
ghost use Rattle.kr_classes_members.specs.Rosters.{all_methods, method_numbered};
ghost use Rattle.kr_types.specs.Programs.{IsProgram};
ghost use Rattle.kr_mean.specs.Program.{program_with};
ghost use Rattle.kr_mean.specs.Code.{Node as CodeNode, code, code_of_method};
ghost use Rattle.kr_mean.specs.Purity.{contract_of, rep_ok_method, roots, tested};
ghost use Rattle.kr_code_members.specs.Nodes.{AreMemberNodes, table};
ghost use Rattle.kr_space_problem.specs.declared.problem.Problem.{Problem as Posing};
ghost use Rattle.kr_space_problem.specs.Posed.{IsPosed, posed};
ghost use Rattle.kr_space_problem.specs.Subjects.{IsSubject};
ghost use Rattle.kr_pure.specs.Entries.{Enter, side_nodes};

use crate::conditions::{Side, add_conditions};
use crate::members::add_bodies;
use kr_ast::NodeId;
use kr_base::NoMemory;
use kr_classes_table::MethodId;
use kr_code_members::MemberNodes;
use kr_space_problem::{Problem, Subject};
use kr_types::Program;
use std::alloc::Global;

/// The root's `repOk`.
fn rep_ok(subject: &Subject) -> Option<MethodId>
    ensures within { (problem : Posing) → IsSubject problem subject.now → IfSome result (λ k. k < length (all_methods (table problem.program))) }
    ensures shown { (problem : Posing) → IsSubject problem subject.now → option_to_list (option_map (method_numbered (table problem.program)) result) ≡ rep_ok_method (posed problem) }
{
    subject.rep_ok
}

/// The method under test, where one is tested.
fn tested(subject: &Subject) -> Option<MethodId>
    ensures within { (problem : Posing) → IsSubject problem subject.now → IfSome result (λ k. k < length (all_methods (table problem.program))) }
    ensures shown { (problem : Posing) → IsSubject problem subject.now → option_to_list (option_map (method_numbered (table problem.program)) result) ≡ tested (posed problem) }
{
    subject.tested
}

/// Adds the conditions of that side of a method's contract.
fn add_side(
    alloc: Global,
    program: &Program,
    nodes: &MemberNodes,
    side: Side,
    method: MethodId,
    entries: &mut Vec<NodeId>,
) -> Result<(), NoMemory>
    requires program { IsProgram program.now }
    requires nodes { AreMemberNodes program.now nodes.now }
    requires method { method < length (all_methods (table program.now)) }
    ensures { (before : List CodeNode) (arrays : List JavaType) → IfOk result (λ done. Enter program.now before entries.old.items → Enter program.now (before ++ flat_map (λ e. code e.scope e.tree) (side_nodes (program_with (table program.now) arrays) side (method_numbered (table program.now) method))) entries.new.items) }
{
    let found = nodes.methods[method as usize];
    add_conditions(alloc, program, side, found.file, found.contracts, entries)
}

/// Adds the body of the root's `repOk`.
fn add_rep_ok(
    problem: &Problem,
    subject: &Subject,
    entries: &mut Vec<NodeId>,
) -> Result<(), NoMemory>
    requires posed { IsPosed problem.now }
    requires subject { IsSubject problem.now subject.now }
    ensures { (before : List CodeNode) → IfOk result (λ done. Enter problem.now.program before entries.old.items → Enter problem.now.program (before ++ flat_map (code_of_method (posed problem.now).program) (rep_ok_method (posed problem.now))) entries.new.items) }
{
    match rep_ok(subject) {
        None => Ok(()),
        Some(method) => add_bodies(&problem.program, &subject.members, &[method], entries),
    }
}

/// Adds the conditions of the method under test.
fn add_contract(
    alloc: Global,
    problem: &Problem,
    subject: &Subject,
    entries: &mut Vec<NodeId>,
) -> Result<(), NoMemory>
    requires posed { IsPosed problem.now }
    requires subject { IsSubject problem.now subject.now }
    ensures { (before : List CodeNode) → IfOk result (λ done. Enter problem.now.program before entries.old.items → Enter problem.now.program (before ++ flat_map (λ e. code e.scope e.tree) (contract_of (posed problem.now))) entries.new.items) }
{
    match tested(subject) {
        None => Ok(()),
        Some(method) => {
            let program = &problem.program;
            let nodes = &subject.members;
            add_side(alloc, program, nodes, Side::Required, method, entries)?;
            add_side(alloc, program, nodes, Side::Ensured, method, entries)
        }
    }
}

/// Where the code of the predicate begins.
pub(crate) fn root_entries(
    alloc: Global,
    problem: &Problem,
    subject: &Subject,
) -> Result<Vec<NodeId>, NoMemory>
    requires posed { IsPosed problem.now }
    requires subject { IsSubject problem.now subject.now }
    ensures { IfOk result (λ entries. Enter problem.now.program (roots (posed problem.now)) entries.items) }
{
    let mut entries = Vec::new(alloc);
    add_rep_ok(problem, subject, &mut entries)?;
    add_contract(alloc, problem, subject, &mut entries)?;
    Ok(entries)
}
