// Initial values of fields as nodes.
ghost use Rattle.std.specs.Prelude.{[], ◌≡◌, ◌<◌, ◌^◌, ◌++◌, IfOk, length, map, flat_map, option_to_list};
ghost use Rattle.std.specs.List.{AllZip, range_with_len};
ghost use Rattle.kr_classes_table.specs.Table as tables;
ghost use Rattle.kr_code.specs.declared.code.Node.TheVariants as made;
ghost use Rattle.kr_code_bodies.specs.Vocabulary.{all_fields, AreNumbers, declared_fields, field_numbered, fields_of_class, first_of, has_initial, initialised_fields, is_instance, IsFieldNode, IsGrown, IsProgram, IsThere, own_fields, run_program, table};
ghost use Rattle.kr_code_bodies.specs.Made.{AreThere, IsInitial};

use kr_ast::Node;
use kr_base::{NoMemory, add_found};
use kr_classes_table::{ClassId, FieldId};
use kr_code::{Initialiser, Node as CodeNode, Nodes};
use kr_code_lowering::{Links, NodeNumbers, Site};
use kr_code_members::FieldNode;
use kr_types::Program;
use std::alloc::Global;

/// The initial value of a field that each object has, if there is one.
fn initialiser_at(
    program: &Program,
    numbers: &NodeNumbers,
    node: FieldNode,
    field: FieldId,
) -> Option<Initialiser>
    requires program { IsProgram program.now }
    requires numbers { AreNumbers program.now numbers.now }
    requires there { IsThere program.now node.file node.initial }
    ensures { (f : tables.Field) → IsFieldNode program.now f node → field_numbered (table program.now) field ≡ f → AllZip (IsInitial program.now) (flat_map has_initial (is_instance f)) (option_to_list result) }
{
    if node.is_static {
        return None;
    }
    let site = Site::of(program, node.file, node.initial);
    match site.entry(program).node {
        Node::Nil => None,
        _ => Some(Initialiser {
            field,
            value: site.code_number(program, numbers, site.node),
        }),
    }
}

/// The initial values of a class's own fields, of which the first has this number.
pub(crate) fn class_initialisers(
    alloc: Global,
    program: &Program,
    numbers: &NodeNumbers,
    class: ClassId,
    nodes: &[FieldNode],
    first_field: FieldId,
) -> Result<Vec<Initialiser>, NoMemory>
    requires program { IsProgram program.now }
    requires numbers { AreNumbers program.now numbers.now }
    requires class { class < length (table program.now).classes }
    requires nodes { AllZip (IsFieldNode program.now) (own_fields (table program.now) class) nodes.now }
    requires first { first_field ≡ first_of fields_of_class (table program.now) class }
    requires few { length (all_fields (table program.now)) < 2 ^ 32 }
    ensures { IfOk result (λ found. AllZip (IsInitial program.now) (initialised_fields (declared_fields (run_program program.now []) class)) found.items) }
{
    let mut found = Vec::new(alloc);
    let mut field = first_field;
    for node in nodes {
        add_found(&mut found, initialiser_at(program, numbers, *node, field))?;
        field += 1;
    }
    Ok(found)
}

/// Adds initial values as nodes, and links to them. Err: out of memory, or 2^32 - 1 nodes.
pub(crate) fn add_initialisers(
    initialisers: &[Initialiser],
    nodes: &mut Vec<CodeNode>,
    links: &mut Links,
) -> Result<Nodes, NoMemory>
    ensures nodes { IfOk result (λ listed. nodes.new.items ≡ nodes.old.items ++ map made.Initialiser initialisers.now) }
    ensures grown { IfOk result (λ listed. IsGrown links.old links.new) }
    ensures there { IfOk result (λ listed. AreThere links.new listed (range_with_len (length nodes.old.items) (length initialisers.now))) }
{
    let start = links.len();
    for initialiser in initialisers {
        if nodes.len() >= 0xffff_ffff {
            return Err(NoMemory::at_limit(nodes.as_slice()));
        }
        links.push(nodes.len() as u32)?;
        nodes.push(CodeNode::Initialiser(*initialiser))?;
    }
    Ok(Nodes {
        first: start,
        count: links.len() - start,
    })
}
