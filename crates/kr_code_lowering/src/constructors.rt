// Bodies of constructors.
ghost use Rattle.std.specs.Prelude.{◌≡◌, List, ℕ, IfOk};
ghost use Rattle.kr_ast.specs.declared.node.Node.TheVariants as nodes;
ghost use Rattle.kr_code_lowering.specs.Vocabulary.{IsGrown, IsProgram};
ghost use Rattle.kr_code_lowering.specs.Numbered.{AreNumbers};
ghost use Rattle.kr_code_lowering.specs.Sites.{IsHere, IsSite};
ghost use Rattle.kr_code_lowering.specs.Bodies.{Calls, Constructs};

use crate::links::Links;
use crate::lists::list_links;
use crate::numbering::NodeNumbers;
use crate::parameters::parameter_links;
use crate::site::Site;
use kr_ast::{Entry, Node};
use kr_base::NoMemory;
use kr_code::{Constructor, Nodes};
use kr_types::Program;

/// The arguments of the call of the superclass's constructor that a node is, if it is one.
fn call_links(
    program: &Program,
    numbers: &NodeNumbers,
    links: &mut Links,
    call: Site,
) -> Result<Option<Nodes>, NoMemory>
    requires program { IsProgram program.now }
    requires numbers { AreNumbers program.now numbers.now }
    requires site { IsSite program.now call }
    ensures grown { IsGrown links.old links.new }
    ensures calls { IfOk result (Calls program.now call links.new) }
{
    match call.entry(program).node {
        Node::ConstructorCall { arguments } => {
            let listed = list_links(program, numbers, call.at(arguments), links)?;
            Ok(Some(listed))
        }
        _ => Ok(None),
    }
}

/// The code of the constructor that a node declares.
pub fn constructor_code(
    program: &Program,
    numbers: &NodeNumbers,
    links: &mut Links,
    site: Site,
    entry: Entry,
    parameters: u32,
    super_call: u32,
    body: u32,
) -> Result<Constructor, NoMemory>
    requires program { IsProgram program.now }
    requires numbers { AreNumbers program.now numbers.now }
    requires here { IsHere program.now site entry }
    requires node { entry.node ≡ nodes.Constructor parameters super_call body }
    ensures grown { IsGrown links.old links.new }
    ensures constructs { (arrays : List ℕ) (names : List (List ℕ)) → IfOk result (Constructs program.now arrays site names links.new) }
{
    let taken = parameter_links(program, site.at(parameters), links)?;
    let call = call_links(program, numbers, links, site.at(super_call))?;
    let statements = list_links(program, numbers, site.at(body), links)?;
    Ok(Constructor {
        parameters: taken,
        call,
        body: statements,
    })
}
