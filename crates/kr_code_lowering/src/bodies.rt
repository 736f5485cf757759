// Bodies of methods.
ghost use Rattle.std.specs.Prelude.{◌≡◌, List, ℕ, IfOk};
ghost use Rattle.kr_ast.specs.Tree as trees;
ghost use Rattle.kr_ast.specs.declared.node.Node.TheVariants as nodes;
ghost use Rattle.kr_code_lowering.specs.Vocabulary.{is_void, IsGrown, IsProgram, Place, table, Tree, type_named};
ghost use Rattle.kr_code_lowering.specs.Origins.{node_tree};
ghost use Rattle.kr_code_lowering.specs.Numbered.{AreNumbers};
ghost use Rattle.kr_code_lowering.specs.Sites.{IsHere, IsSite, tree_at};
ghost use Rattle.kr_code_lowering.specs.Bodies.{AreTyped, Declares};

use crate::links::Links;
use crate::lists::list_links;
use crate::numbering::NodeNumbers;
use crate::parameters::parameter_links;
use crate::site::Site;
use crate::types::named_type;
use kr_ast::{Entry, Name, Node};
use kr_base::NoMemory;
use kr_code::{MethodCode, Nodes};
use kr_types::Program;

/// Whether a node names no type that has values.
fn names_void(program: &Program, site: Site, node: u32) -> bool
    requires program { IsProgram program.now }
    requires site { IsSite program.now site }
    ensures { result ≡ is_void (type_named (table program.now).headings (node_tree program.now site.file node)) }
{
    let types = &program.table.types;
    types.is_same(named_type(program, site, node), types.void())
}

/// Whether a signature names no result.
fn is_void(program: &Program, signature: Site) -> bool
    requires program { IsProgram program.now }
    requires site { IsSite program.now signature }
    ensures { (q : Place) (r ps cs : Tree) → tree_at program.now signature ≡ trees.Signature q r ps cs → result ≡ is_void (type_named (table program.now).headings r) }
{
    match signature.entry(program).node {
        Node::Signature { result, .. } => names_void(program, signature, result),
        _ => true,
    }
}

/// The types of a signature's parameters, as links.
fn signature_links(program: &Program, signature: Site, links: &mut Links) -> Result<Nodes, NoMemory>
    requires program { IsProgram program.now }
    requires site { IsSite program.now signature }
    ensures grown { IsGrown links.old links.new }
    ensures typed { IfOk result (λ nodes. (q : Place) (r ps cs : Tree) → tree_at program.now signature ≡ trees.Signature q r ps cs → AreTyped program.now ps links.new nodes) }
{
    match signature.entry(program).node {
        Node::Signature { parameters, .. } => {
            parameter_links(program, signature.at(parameters), links)
        }
        _ => Ok(Nodes { first: 0, count: 0 }),
    }
}

/// The code of the method that a node declares.
pub fn method_code(
    program: &Program,
    numbers: &NodeNumbers,
    links: &mut Links,
    site: Site,
    entry: Entry,
    is_static: bool,
    name: Name,
    signature: u32,
    body: u32,
) -> Result<MethodCode, NoMemory>
    requires program { IsProgram program.now }
    requires numbers { AreNumbers program.now numbers.now }
    requires here { IsHere program.now site entry }
    requires node { entry.node ≡ nodes.Method is_static name signature body }
    ensures grown { IsGrown links.old links.new }
    ensures declares { (arrays : List ℕ) (names : List (List ℕ)) → IfOk result (Declares program.now arrays site names links.new) }
{
    let is_void = is_void(program, site.at(signature));
    let parameters = signature_links(program, site.at(signature), links)?;
    let statements = list_links(program, numbers, site.at(body), links)?;
    Ok(MethodCode {
        parameters,
        is_void,
        body: statements,
    })
}
