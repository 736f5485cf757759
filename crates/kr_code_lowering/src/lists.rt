// Lists of nodes as links that follow one another.
ghost use Rattle.std.specs.Prelude.{◌≡◌, ◌<◌, ◌∷◌, [], IfOk, IfSome, MatchOption, length};
ghost use Rattle.kr_code_lowering.specs.Vocabulary.{IsGrown, IsProgram, items};
ghost use Rattle.kr_code_lowering.specs.Origins.{node_tree};
ghost use Rattle.kr_code_lowering.specs.Numbered.{AreNumbers};
ghost use Rattle.kr_code_lowering.specs.Sites.{IsSite, arena_at, tree_at};
ghost use Rattle.kr_code_lowering.specs.Lists.{AreLinked, IsAhead, IsList};

use crate::links::Links;
use crate::numbering::NodeNumbers;
use crate::site::Site;
use kr_ast::Node;
use kr_base::NoMemory;
use kr_code::Nodes;
use kr_types::Program;

/// The first item of a list, and the rest.
pub fn first_item(program: &Program, list: Site) -> Option<(u32, u32)>
    requires program { IsProgram program.now }
    requires site { IsSite program.now list }
    ensures within { IfSome result (λ p. p.0 < length (arena_at program.now list).entries) }
    ensures behind { IfSome result (λ p. p.1 < list.node) }
    ensures here { IfSome result (λ p. IsList program.now list p.0 p.1) }
    ensures none { MatchOption result (items (tree_at program.now list) ≡ []) (λ p. IsAhead program.now list p.0 p.1) }
    ensures shown { MatchOption result (items (tree_at program.now list) ≡ []) (λ p. items (tree_at program.now list) ≡ node_tree program.now list.file p.0 ∷ items (node_tree program.now list.file p.1)) }
{
    match list.entry(program).node {
        Node::Cons { first, rest } => Some((first, rest)),
        _ => None,
    }
}

/// The nodes of a list's items, as links.
pub(crate) fn list_links(
    program: &Program,
    numbers: &NodeNumbers,
    list: Site,
    links: &mut Links,
) -> Result<Nodes, NoMemory>
    requires program { IsProgram program.now }
    requires numbers { AreNumbers program.now numbers.now }
    requires site { IsSite program.now list }
    ensures grown { IsGrown links.old links.new }
    ensures linked { IfOk result (λ nodes. AreLinked program.now list links.new nodes) }
{
    let start = links.len();
    let mut at = list;
    while let Some((item, rest)) = first_item(program, at) {
        links.push(at.code_number(program, numbers, item))?;
        at = at.at(rest);
    }
    Ok(Nodes {
        first: start,
        count: links.len() - start,
    })
}
