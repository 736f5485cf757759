// The nodes of constructors.
ghost use Rattle.std.specs.Prelude.{All, flat_map, option_to_list};
ghost use Rattle.kr_classes_table.specs.Table.{constructors_in};
ghost use Rattle.std.specs.List.{AllZip};
ghost use Rattle.kr_types.specs.Programs.{IsProgram};
ghost use Rattle.kr_mean.specs.Program.{first};
ghost use Rattle.kr_code_members.specs.Nodes.{IsConstructorNode, IsMaybeConstructorNode, IsMemberNode, node_tree, table};

use crate::nodes::{ConstructorNode, entry};
use kr_ast::Node;
use kr_types::Program;

/// The constructor that a member is.
#[tactic(auto, using(crate::proofs::Constructing::declared_constructor, crate::proofs::Constructing::no_constructor))]
fn constructor_node(
    program: &Program,
    file: u32,
    class: u32,
    member: u32,
) -> Option<ConstructorNode>
    requires program { IsProgram program.now }
    requires member { IsMemberNode program.now file class member }
    ensures { AllZip (IsConstructorNode program.now class) (constructors_in (table program.now).headings (node_tree program.now file member)) (option_to_list result) }
{
    match entry(program, file, member).node {
        Node::Constructor {
            super_call,
            body,
            ..
        } => Some(ConstructorNode {
            file,
            node: member,
            super_call,
            body,
        }),
        _ => None,
    }
}

/// The constructor among a class's members.
pub(crate) fn own_constructor(
    program: &Program,
    file: u32,
    class: u32,
    members: &[u32],
) -> Option<ConstructorNode>
    requires program { IsProgram program.now }
    requires members { All (IsMemberNode program.now file class) members.now }
    ensures { IsMaybeConstructorNode program.now class (first (flat_map (λ n. constructors_in (table program.now).headings (node_tree program.now file n)) members.now)) result }
{
    for member in members {
        let found = constructor_node(program, file, class, *member);
        if found.is_some() {
            return found;
        }
    }
    None
}
