// The code of a problem's program.
ghost use Rattle.std.specs.Prelude.{◌≤◌, IfOk, length};
ghost use Rattle.kr_judge_code.specs.Vocabulary.{AreNumbers, coded_count, IsPosed, IsProgram, IsSubject, others_from};
ghost use Rattle.kr_judge_code.specs.Compiled.{HasCall, IsCompiled};

use crate::call::rep_ok_call;
use crate::root::rep_ok;
use kr_base::NoMemory;
use kr_code::{Code, Expression, Node};
use kr_code_bodies::{Tables, bodies_of};
use kr_code_lowering::{NodeNumbers, ResolvedNodes, resolve_nodes};
use kr_space_problem::{Problem, Subject};
use kr_types::Program;
use std::alloc::Global;

/// The nodes end before the numbers of nodes without code begin. Err: there are too many for both.
fn end_before_others(program: &Program, nodes: &Vec<Node>) -> Result<(), NoMemory>
    requires program { IsProgram program.now }
    requires files { coded_count program.now ≤ length nodes.now.items }
    ensures { IfOk result (λ none. length nodes.now.items ≤ others_from program.now) }
{
    let count = nodes.len() as u64;
    let files = u64::from(program.nodes());
    if count > 0xffff_ffff - files {
        return Err(NoMemory::at_sum(count, files));
    }
    Ok(())
}

/// Adds the call of the root's `repOk` and its `this` after the nodes of the files.
fn add_call(problem: &Problem, subject: &Subject, nodes: &mut Vec<Node>) -> Result<(), NoMemory>
    requires posed { IsPosed problem.now }
    requires subject { IsSubject problem.now subject.now }
    ensures { IfOk result (λ none. HasCall problem.now nodes.old.items nodes.new.items) }
{
    let next = nodes.len() as u64 + 1;
    let Ok(object) = u32::try_from(next) else {
        return Err(NoMemory::at_limit(nodes.as_slice()));
    };
    let call = rep_ok_call(&problem.program, rep_ok(problem, subject), object);
    nodes.push(Node::Expression(call))?;
    nodes.push(Node::Expression(Expression::This))?;
    Ok(())
}

/// The code of the problem's program, with the call of the root's `repOk` after the nodes of the files.
pub(crate) fn code_of(
    alloc: Global,
    problem: &Problem,
    numbers: &NodeNumbers,
    subject: &Subject,
) -> Result<Code, NoMemory>
    requires posed { IsPosed problem.now }
    requires numbers { AreNumbers problem.now.program numbers.now }
    requires subject { IsSubject problem.now subject.now }
    ensures { IfOk result (IsCompiled problem.now) }
{
    let program = &problem.program;
    let table = &program.table;
    let roster = &program.roster;
    let arrays = problem.arrays.as_slice();
    let ResolvedNodes {
        mut nodes,
        mut links,
        names,
    } = resolve_nodes(alloc, program, numbers, arrays)?;
    add_call(problem, subject, &mut nodes)?;
    let made = bodies_of(
        alloc,
        program,
        numbers,
        roster,
        &subject.members,
        &mut nodes,
        &mut links,
    )?;
    end_before_others(program, &nodes)?;
    let tables = Tables::read(
        alloc,
        &program.trees,
        &table.heads,
        &table.members,
        &table.types,
        roster,
        arrays,
        names.as_slice(),
    )?;
    Ok(Code {
        nodes,
        links: links.into_vec(),
        values: made.values,
        methods: made.methods,
        classes: made.classes,
        positions: tables.positions,
        spots: tables.spots,
        dispatch: tables.dispatch,
        instances: tables.instances,
        array_types: tables.array_types,
        trap_classes: tables.trap_classes,
    })
}
