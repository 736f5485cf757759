// The nodes of all members.
ghost use Rattle.std.specs.Prelude.{◌≡◌, ◌++◌, List, All, IfOk, map, flat_map};
ghost use Rattle.kr_classes_table.specs.Table.{Method, constructors_in, fields_in, methods_in};
ghost use Rattle.std.specs.List.{AllZip};
ghost use Rattle.kr_types.specs.Programs.{IsProgram};
ghost use Rattle.kr_mean.specs.Program.{first};
ghost use Rattle.kr_code_members.specs.Nodes.{AreMemberNodes, AreShaped, IsFieldNode, IsMaybeConstructorNode, IsMemberNode, IsMethodNode, node_tree, table};
ghost use Rattle.kr_code_members.specs.Walk.{IsClassNode, heading_numbered};

use crate::classes::{class_nodes, member_list};
use crate::constructors::own_constructor;
use crate::fields::own_fields;
use crate::lists::list_nodes;
use crate::methods::add_methods;
use crate::nodes::{ClassNodes, MemberNodes, MethodNode};
use kr_ast::NodeId;
use kr_base::NoMemory;
use kr_types::Program;
use std::alloc::Global;

/// The members of a class.
#[tactic(auto, using(crate::proofs::Nested::a_class, crate::proofs::Nested::listed_members, crate::proofs::Nested::member_nodes_are))]
fn members_of(
    alloc: Global,
    program: &Program,
    class: u32,
    at: NodeId,
) -> Result<Vec<u32>, NoMemory>
    requires program { IsProgram program.now }
    requires class { IsClassNode program.now class at }
    ensures stand { IfOk result (λ nodes. All (IsMemberNode program.now at.file class) nodes.items) }
    ensures shown { IfOk result (λ nodes. map (node_tree program.now at.file) nodes.items ≡ (heading_numbered program.now class).members) }
{
    match member_list(program, at.file, at.node) {
        None => Ok(Vec::new(alloc)),
        Some(list) => {
            let found = list_nodes(alloc, program, at.file, list)?;
            Ok(found)
        }
    }
}

/// The nodes of a class's members; its methods come after those of the classes before it.
fn class_members(
    alloc: Global,
    program: &Program,
    class: u32,
    at: NodeId,
    methods: &mut Vec<MethodNode>,
) -> Result<ClassNodes, NoMemory>
    requires program { IsProgram program.now }
    requires class { IsClassNode program.now class at }
    ensures methods { (before : List Method) → IfOk result (λ none. AllZip (IsMethodNode program.now) before methods.old.items → AllZip (IsMethodNode program.now) (before ++ flat_map (methods_in (table program.now).headings class) (heading_numbered program.now class).members) methods.new.items) }
    ensures fields { IfOk result (λ made. AllZip (IsFieldNode program.now) (flat_map (fields_in (table program.now).headings class) (heading_numbered program.now class).members) made.fields.items) }
    ensures constructor { IfOk result (λ made. IsMaybeConstructorNode program.now class (first (flat_map (constructors_in (table program.now).headings) (heading_numbered program.now class).members)) made.constructor) }
{
    let members = members_of(alloc, program, class, at)?;
    add_methods(program, at.file, class, &members, methods)?;
    let fields = own_fields(alloc, program, at.file, class, &members)?;
    let constructor = own_constructor(program, at.file, class, &members);
    Ok(ClassNodes {
        fields,
        constructor,
    })
}

/// The nodes of the members of a program's classes.
pub fn member_nodes(alloc: Global, program: &Program) -> Result<MemberNodes, NoMemory>
    requires program { IsProgram program.now }
    requires shaped { AreShaped program.now }
    ensures { IfOk result (λ nodes. AreMemberNodes program.now nodes) }
{
    let nodes = class_nodes(alloc, program)?;
    let mut methods = Vec::new(alloc);
    let mut classes = Vec::new(alloc);
    let count = nodes.len() as u32;
    for class in 0..count {
        let at = nodes[class as usize];
        let made = class_members(alloc, program, class, at, &mut methods)?;
        classes.push(made)?;
    }
    Ok(MemberNodes { methods, classes })
}
