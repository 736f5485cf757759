// The code of methods.
ghost use Rattle.std.specs.Prelude.{◌≡◌, ℕ, List, IfOk, Some, length, slice_get};
ghost use Rattle.kr_classes_table.specs.Table as tables;
ghost use Rattle.kr_code.specs.declared.code.MethodCode.{MethodCode as Made};
ghost use Rattle.kr_code_bodies.specs.Vocabulary.{AreNumbers, IsGrown, IsMethodNode, IsProgram, IsThere, method_numbered, table};
ghost use Rattle.kr_code_bodies.specs.Made.{IsMethodMade, IsMethodNumbered};

use kr_ast::Node;
use kr_base::NoMemory;
use kr_code::{MethodCode, Nodes};
use kr_code_lowering::{Links, NodeNumbers, Site, method_code};
use kr_code_members::MethodNode;
use kr_types::Program;
use std::alloc::Global;

/// The code of a method.
fn method_at(
    program: &Program,
    numbers: &NodeNumbers,
    links: &mut Links,
    node: MethodNode,
) -> Result<MethodCode, NoMemory>
    requires program { IsProgram program.now }
    requires numbers { AreNumbers program.now numbers.now }
    requires there { IsThere program.now node.file node.node }
    ensures grown { IsGrown links.old links.new }
    ensures made { (arrays : List ℕ) (names : List (List ℕ)) (m : tables.Method) → IsMethodNode program.now m node → IfOk result (IsMethodMade program.now arrays names links.new m) }
{
    let site = Site::of(program, node.file, node.node);
    let entry = site.entry(program);
    match entry.node {
        Node::Method {
            is_static,
            name,
            signature,
            body,
        } => method_code(
            program, numbers, links, site, entry, is_static, name, signature, body,
        ),
        _ => Ok(MethodCode {
            parameters: Nodes { first: 0, count: 0 },
            is_void: true,
            body: Nodes { first: 0, count: 0 },
        }),
    }
}

/// The code of the methods of these nodes.
pub(crate) fn method_codes(
    alloc: Global,
    program: &Program,
    numbers: &NodeNumbers,
    nodes: &[MethodNode],
    links: &mut Links,
) -> Result<Vec<MethodCode>, NoMemory>
    requires program { IsProgram program.now }
    requires numbers { AreNumbers program.now numbers.now }
    requires nodes { (k : ℕ) (n : MethodNode) → slice_get nodes.now k ≡ Some n → IsMethodNode program.now (method_numbered (table program.now) k) n }
    ensures grown { IfOk result (λ made. IsGrown links.old links.new) }
    ensures count { IfOk result (λ made. length made.items ≡ length nodes.now) }
    ensures made { (arrays : List ℕ) (names : List (List ℕ)) → IfOk result (λ made. (k : ℕ) (m : Made) → slice_get made.items k ≡ Some m → IsMethodNumbered program.now arrays names links.new k m) }
{
    let mut made = Vec::new(alloc);
    for node in nodes {
        made.push(method_at(program, numbers, links, *node)?)?;
    }
    Ok(made)
}
