// The code of constructors.
ghost use Rattle.std.specs.Prelude.{ℕ, List, Option, Some, IfOk, IfSome};
ghost use Rattle.kr_classes_table.specs.Table as tables;
ghost use Rattle.kr_code_bodies.specs.Vocabulary.{AreNumbers, IsConstructorNode, IsGrown, IsMaybeConstructorNode, IsProgram, IsThere};
ghost use Rattle.kr_code_bodies.specs.Made.{IsConstructorMade};

use kr_ast::Node;
use kr_base::NoMemory;
use kr_code::{Constructor, Nodes};
use kr_code_lowering::{Links, NodeNumbers, Site, constructor_code};
use kr_code_members::ConstructorNode;
use kr_types::Program;

/// The code of a constructor.
fn constructor_at(
    program: &Program,
    numbers: &NodeNumbers,
    links: &mut Links,
    node: ConstructorNode,
) -> Result<Constructor, NoMemory>
    requires program { IsProgram program.now }
    requires numbers { AreNumbers program.now numbers.now }
    requires there { IsThere program.now node.file node.node }
    ensures grown { IsGrown links.old links.new }
    ensures made { (arrays : List ℕ) (names : List (List ℕ)) (c : ℕ) (k : tables.Constructor) → IsConstructorNode program.now c k node → IfOk result (λ made. IsConstructorMade program.now arrays names links.new c (Some k) (Some made)) }
{
    let site = Site::of(program, node.file, node.node);
    let entry = site.entry(program);
    match entry.node {
        Node::Constructor {
            parameters,
            super_call,
            body,
        } => constructor_code(
            program, numbers, links, site, entry, parameters, super_call, body,
        ),
        _ => Ok(Constructor {
            parameters: Nodes { first: 0, count: 0 },
            call: None,
            body: Nodes { first: 0, count: 0 },
        }),
    }
}

/// The code of a class's constructor, if it has one.
pub(crate) fn maybe_constructor(
    program: &Program,
    numbers: &NodeNumbers,
    links: &mut Links,
    node: Option<ConstructorNode>,
) -> Result<Option<Constructor>, NoMemory>
    requires program { IsProgram program.now }
    requires numbers { AreNumbers program.now numbers.now }
    requires there { IfSome node (λ n. IsThere program.now n.file n.node) }
    ensures grown { IsGrown links.old links.new }
    ensures made { (arrays : List ℕ) (names : List (List ℕ)) (c : ℕ) (k : Option tables.Constructor) → IsMaybeConstructorNode program.now c k node → IfOk result (IsConstructorMade program.now arrays names links.new c k) }
{
    match node {
        None => Ok(None),
        Some(node) => Ok(Some(constructor_at(program, numbers, links, node)?)),
    }
}
