// The nodes of fields' initial values.
ghost use Rattle.std.specs.Prelude.{◌≡◌, ◌++◌, [], List, All, IfOk, MatchOption, flat_map, option_to_list};
ghost use Rattle.kr_classes_table.specs.Table.{Field, fields_in};
ghost use Rattle.std.specs.List.{AllZip};
ghost use Rattle.kr_types.specs.Programs.{IsProgram};
ghost use Rattle.kr_code_members.specs.Nodes.{IsFieldNode, IsMemberNode, node_tree, table};
ghost use Rattle.kr_code_members.specs.Walk.{IsLine, IsOnLine, declared_on};

use crate::lists::list_nodes;
use crate::nodes::{FieldNode, entry};
use kr_ast::Node;
use kr_base::{NoMemory, add_found};
use kr_types::Program;
use std::alloc::Global;

/// The parts common to the declarators of one line of fields, and the list of them.
#[derive(Clone, Copy)]
pub(crate) struct FieldLine {
    pub(crate) is_static: bool,
    pub(crate) is_final: bool,
    pub(crate) declared: u32,
    pub(crate) declarators: u32,
}

/// The line of fields that a member is.
#[tactic(auto, using(crate::proofs::Declaring::no_fields))]
fn line_of_fields(program: &Program, file: u32, class: u32, member: u32) -> Option<FieldLine>
    requires program { IsProgram program.now }
    requires member { IsMemberNode program.now file class member }
    ensures { MatchOption result (fields_in (table program.now).headings class (node_tree program.now file member) ≡ []) (λ l. IsLine program.now file class member l) }
{
    match entry(program, file, member).node {
        Node::Field {
            is_static,
            is_final,
            declared,
            declarators,
        } => Some(FieldLine {
            is_static,
            is_final,
            declared,
            declarators,
        }),
        _ => None,
    }
}

/// The field that a declarator declares.
#[tactic(auto, using(crate::proofs::Declaring::declared_field, crate::proofs::Declaring::nothing_declared))]
fn field_node(
    program: &Program,
    file: u32,
    class: u32,
    line: FieldLine,
    declarator: u32,
) -> Option<FieldNode>
    requires program { IsProgram program.now }
    requires declarator { IsOnLine program.now file class line declarator }
    ensures { AllZip (IsFieldNode program.now) (declared_on program.now file class line declarator) (option_to_list result) }
{
    match entry(program, file, declarator).node {
        Node::Declarator { initial, .. } => Some(FieldNode {
            file,
            is_static: line.is_static,
            initial,
        }),
        _ => None,
    }
}

/// The declarators of a line.
#[tactic(auto, using(crate::proofs::Declaring::still_line, crate::proofs::Declaring::on_line, crate::proofs::Declaring::line_declares))]
fn declarators(
    alloc: Global,
    program: &Program,
    file: u32,
    class: u32,
    member: u32,
    line: FieldLine,
) -> Result<Vec<u32>, NoMemory>
    requires program { IsProgram program.now }
    requires line { IsLine program.now file class member line }
    ensures stand { IfOk result (λ nodes. All (IsOnLine program.now file class line) nodes.items) }
    ensures declare { IfOk result (λ nodes. flat_map (declared_on program.now file class line) nodes.items ≡ fields_in (table program.now).headings class (node_tree program.now file member)) }
{
    let found = list_nodes(alloc, program, file, line.declarators)?;
    Ok(found)
}

/// Adds the fields that declarators declare.
#[tactic(auto, using(crate::proofs::Zipped::zip_start, crate::proofs::Zipped::zip_end))]
fn add_declared(
    program: &Program,
    file: u32,
    class: u32,
    line: FieldLine,
    declarators: &[u32],
    fields: &mut Vec<FieldNode>,
) -> Result<(), NoMemory>
    requires program { IsProgram program.now }
    requires declarators { All (IsOnLine program.now file class line) declarators.now }
    ensures { (before : List Field) → IfOk result (λ none. AllZip (IsFieldNode program.now) before fields.old.items → AllZip (IsFieldNode program.now) (before ++ flat_map (declared_on program.now file class line) declarators.now) fields.new.items) }
{
    for declarator in declarators {
        add_found(fields, field_node(program, file, class, line, *declarator))?;
    }
    Ok(())
}

/// Adds the fields that a member declares.
fn add_fields(
    alloc: Global,
    program: &Program,
    file: u32,
    class: u32,
    member: u32,
    fields: &mut Vec<FieldNode>,
) -> Result<(), NoMemory>
    requires program { IsProgram program.now }
    requires member { IsMemberNode program.now file class member }
    ensures { (before : List Field) → IfOk result (λ none. AllZip (IsFieldNode program.now) before fields.old.items → AllZip (IsFieldNode program.now) (before ++ fields_in (table program.now).headings class (node_tree program.now file member)) fields.new.items) }
{
    match line_of_fields(program, file, class, member) {
        None => Ok(()),
        Some(line) => {
            let nodes = declarators(alloc, program, file, class, member, line)?;
            add_declared(program, file, class, line, &nodes, fields)
        }
    }
}

/// The fields among a class's members.
pub(crate) fn own_fields(
    alloc: Global,
    program: &Program,
    file: u32,
    class: u32,
    members: &[u32],
) -> Result<Vec<FieldNode>, NoMemory>
    requires program { IsProgram program.now }
    requires members { All (IsMemberNode program.now file class) members.now }
    ensures { IfOk result (λ fields. AllZip (IsFieldNode program.now) (flat_map (λ n. fields_in (table program.now).headings class (node_tree program.now file n)) members.now) fields.items) }
{
    let mut fields = Vec::new(alloc);
    for member in members {
        add_fields(alloc, program, file, class, *member, &mut fields)?;
    }
    Ok(fields)
}
