// `class A { int v = 7; }`: the nodes of its members, the code of its nodes, and the code of its members.
ghost use Rattle.kr_code_members.specs.Nodes.{AreMemberNodes, AreShaped};
ghost use Rattle.kr_classes_members.specs.Rosters.{IsRoster};
ghost use Rattle.kr_code_lowering.specs.Numbered.{AreNumbers};
ghost use Rattle.kr_types.specs.Programs.{IsProgram};

use kr_base::{NoMemory, Place};
use kr_classes_members::Roster;
use kr_code::{Expression, Node};
use kr_code_bodies::{Bodies, bodies_of};
use kr_code_lowering::{Links, NodeNumbers, resolve_nodes};
use kr_code_members::{ClassNodes, FieldNode, MemberNodes, member_nodes};
use kr_sources::{Unread, program_of};
use kr_types::Program;
use kr_value::Value;
use std::alloc::Global;

/// Whether a node is the initial value, by its place.
fn is_initial(program: &Program, node: u32) -> bool
    requires { IsProgram program.now }
{
    let place = Place {
        file: 0,
        line: 1,
        col: 19,
    };
    node < program.nodes() && program.place_of(node) == place
}

fn fields_fit(program: &Program, fields: &[FieldNode]) -> bool
    requires { IsProgram program.now }
{
    match fields {
        [field] => is_initial(program, field.initial),
        _ => false,
    }
}

fn classes_fit(program: &Program, classes: &[ClassNodes]) -> bool
    requires { IsProgram program.now }
{
    match classes {
        [class] => class.constructor.is_none() && fields_fit(program, class.fields.as_slice()),
        _ => false,
    }
}

fn member_nodes_fit(program: &Program, nodes: &MemberNodes) -> bool
    requires { IsProgram program.now }
{
    nodes.methods.is_empty() && classes_fit(program, nodes.classes.as_slice())
}

/// Whether a node is the literal of an int.
fn is_literal(node: Option<&Node>, number: i64) -> bool {
    match node {
        Some(Node::Expression(Expression::Literal(value))) => *value == Value::Int(number),
        _ => false,
    }
}

/// Whether a node has the first number.
fn is_first(numbers: &NodeNumbers, node: u32) -> bool {
    match numbers.all.get(node as usize) {
        Some(number) => *number == 0,
        None => false,
    }
}

/// Of twelve nodes the initial value has the first number of code, and two have code, with its declarator.
fn numbers_fit(program: &Program, numbers: &NodeNumbers) -> bool
    requires { IsProgram program.now }
{
    for node in 0..12 {
        if is_first(numbers, node) != is_initial(program, node) {
            return false;
        }
    }
    numbers.all.len() == 12 && numbers.coded == 2
}

/// The first node is a literal, of 7, and the other one isn't.
fn resolved_fit(nodes: &[Node]) -> bool {
    nodes.len() == 2 && is_literal(nodes.first(), 7) && !is_literal(nodes.last(), 7)
}

/// The initial value has the first number.
fn is_initialiser(nodes: &[Node]) -> bool {
    match nodes {
        [Node::Initialiser(initial)] => initial.value == 0,
        _ => false,
    }
}

fn bodies_fit(made: &Bodies) -> bool {
    made.methods.is_empty()
        && made.classes.len() == 1
        && made.values.as_slice() == [Value::Int(0)].as_slice()
}

/// The code of the members.
fn made_fits(
    alloc: Global,
    program: &Program,
    numbers: &NodeNumbers,
    roster: &Roster,
    members: &MemberNodes,
) -> Result<bool, NoMemory>
    requires program { IsProgram program.now }
    requires numbers { AreNumbers program.now numbers.now }
    requires roster { IsRoster program.now.trees.items roster.now }
    requires members { AreMemberNodes program.now members.now }
{
    let mut nodes = Vec::new(alloc);
    let mut links = Links::new(alloc);
    let made = bodies_of(
        alloc, program, numbers, roster, members, &mut nodes, &mut links,
    )?;
    Ok(links.len() == 2 && bodies_fit(&made) && is_initialiser(nodes.as_slice()))
}

/// The nodes of the members, and their code.
fn members_fit(
    alloc: Global,
    program: &Program,
    numbers: &NodeNumbers,
    roster: &Roster,
) -> Result<(bool, bool), NoMemory>
    requires program { IsProgram program.now }
    requires numbers { AreNumbers program.now numbers.now }
    requires shaped { AreShaped program.now }
    requires roster { IsRoster program.now.trees.items roster.now }
{
    let members = member_nodes(alloc, program)?;
    let made = made_fits(alloc, program, numbers, roster, &members)?;
    Ok((member_nodes_fit(program, &members), made))
}

fn nodes_fit(alloc: Global, program: &Program, numbers: &NodeNumbers) -> Result<bool, NoMemory>
    requires program { IsProgram program.now }
    requires numbers { AreNumbers program.now numbers.now }
{
    let resolved = resolve_nodes(alloc, program, numbers, &[])?;
    Ok(numbers_fit(program, numbers) && resolved_fit(resolved.nodes.as_slice()))
}

/// All three.
fn program_fits(alloc: Global, program: &Program) -> Result<(bool, bool, bool), NoMemory>
    requires program { IsProgram program.now }
    requires shaped { AreShaped program.now }
{
    let roster = Roster::read(alloc, &program.table.members)?;
    let numbers = NodeNumbers::of(alloc, program)?;
    let nodes = nodes_fit(alloc, program, &numbers)?;
    let (members, made) = members_fit(alloc, program, &numbers, &roster)?;
    Ok((nodes, members, made))
}

#[test]
fn a_field_with_an_initial_value(rt: HostRuntime) -> Result<(), Unread> {
    let program = program_of(rt.alloc(), "class A { int v = 7; }")?;
    let (nodes, members, made) = program_fits(rt.alloc(), &program)?;
    assert!(rt; nodes);
    assert!(rt; members);
    assert!(rt; made);
    Ok(())
}
