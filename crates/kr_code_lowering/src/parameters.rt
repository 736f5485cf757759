// The types of parameters as links that follow one another.
ghost use Rattle.std.specs.Prelude.{◌<◌, IfOk};
ghost use Rattle.kr_code_lowering.specs.Vocabulary.{IsGrown, IsProgram, IsTypeNumber, table};
ghost use Rattle.kr_code_lowering.specs.Sites.{IsSite, tree_at};
ghost use Rattle.kr_code_lowering.specs.Bodies.{AreTyped, parameter_type};

use crate::links::Links;
use crate::lists::first_item;
use crate::site::Site;
use crate::types::named_type;
use kr_ast::Node;
use kr_base::NoMemory;
use kr_classes_table::TypeId;
use kr_code::Nodes;
use kr_types::Program;

/// The type of a parameter.
fn parameter_type(program: &Program, parameter: Site) -> TypeId
    requires program { IsProgram program.now }
    requires site { IsSite program.now parameter }
    ensures { IsTypeNumber program.now.table.types result (parameter_type (table program.now).headings (tree_at program.now parameter)) }
{
    match parameter.entry(program).node {
        Node::Parameter { declared, .. } => named_type(program, parameter, declared),
        _ => program.table.types.void(),
    }
}

/// The types of a list of parameters, as links.
pub(crate) fn parameter_links(
    program: &Program,
    list: Site,
    links: &mut Links,
) -> Result<Nodes, NoMemory>
    requires program { IsProgram program.now }
    requires site { IsSite program.now list }
    ensures grown { IsGrown links.old links.new }
    ensures typed { IfOk result (λ nodes. AreTyped program.now (tree_at program.now list) links.new nodes) }
{
    let start = links.len();
    let mut at = list;
    while let Some((item, rest)) = first_item(program, at) {
        links.push(parameter_type(program, at.at(item)))?;
        at = at.at(rest);
    }
    Ok(Nodes {
        first: start,
        count: links.len() - start,
    })
}
