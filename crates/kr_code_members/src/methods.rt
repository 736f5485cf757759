// The nodes of methods.
ghost use Rattle.std.specs.Prelude.{◌≡◌, ◌++◌, List, All, IfOk, flat_map, option_to_list};
ghost use Rattle.kr_ast.specs.declared.node.Node.TheVariants as nodes;
ghost use Rattle.kr_classes_table.specs.Table.{Method, methods_in};
ghost use Rattle.std.specs.List.{AllZip};
ghost use Rattle.kr_types.specs.Programs.{IsProgram};
ghost use Rattle.kr_code_members.specs.Nodes.{IsHere, IsMemberNode, IsMethodNode, node_tree, table};

use crate::nodes::{MethodNode, entry};
use kr_ast::{Entry, Name, Node};
use kr_base::{NoMemory, add_found};
use kr_types::Program;

/// A method with the parts of its signature.
#[tactic(auto, using(crate::proofs::Signed::unsigned))]
fn with_signature(
    program: &Program,
    file: u32,
    class: u32,
    member: u32,
    here: Entry,
    is_static: bool,
    name: Name,
    signature: u32,
    body: u32,
) -> Option<MethodNode>
    requires program { IsProgram program.now }
    requires member { IsMemberNode program.now file class member }
    requires here { IsHere program.now file member here }
    requires node { here.node ≡ nodes.Method is_static name signature body }
    ensures { AllZip (IsMethodNode program.now) (methods_in (table program.now).headings class (node_tree program.now file member)) (option_to_list result) }
{
    match entry(program, file, signature).node {
        Node::Signature { contracts, .. } => Some(MethodNode {
            file,
            class,
            node: member,
            contracts,
            body,
        }),
        _ => None,
    }
}

/// The method that a member is.
#[tactic(auto, using(crate::proofs::Signed::no_method))]
fn method_node(program: &Program, file: u32, class: u32, member: u32) -> Option<MethodNode>
    requires program { IsProgram program.now }
    requires member { IsMemberNode program.now file class member }
    ensures { AllZip (IsMethodNode program.now) (methods_in (table program.now).headings class (node_tree program.now file member)) (option_to_list result) }
{
    let here = entry(program, file, member);
    match here.node {
        Node::Method {
            is_static,
            name,
            signature,
            body,
        } => with_signature(
            program, file, class, member, here, is_static, name, signature, body,
        ),
        _ => None,
    }
}

/// Adds the methods among a class's members.
#[tactic(auto, using(crate::proofs::Zipped::zip_start, crate::proofs::Zipped::zip_end))]
pub(crate) fn add_methods(
    program: &Program,
    file: u32,
    class: u32,
    members: &[u32],
    methods: &mut Vec<MethodNode>,
) -> Result<(), NoMemory>
    requires program { IsProgram program.now }
    requires members { All (IsMemberNode program.now file class) members.now }
    ensures { (before : List Method) → IfOk result (λ none. AllZip (IsMethodNode program.now) before methods.old.items → AllZip (IsMethodNode program.now) (before ++ flat_map (λ n. methods_in (table program.now).headings class (node_tree program.now file n)) members.now) methods.new.items) }
{
    for member in members {
        add_found(methods, method_node(program, file, class, *member))?;
    }
    Ok(())
}
