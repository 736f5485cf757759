// Catches.
ghost use Rattle.std.specs.Prelude.{◌≡◌, ◌<◌, length};
ghost use Rattle.kr_ast.specs.declared.node.Node.TheVariants as nodes;
ghost use Rattle.kr_code_lowering.specs.Vocabulary.{caught_type, IsProgram, IsTypeNumber};
ghost use Rattle.kr_code_lowering.specs.Origins.{node_tree};
ghost use Rattle.kr_code_lowering.specs.Numbered.{AreNumbers};
ghost use Rattle.kr_code_lowering.specs.Sites.{IsHere, IsSite, arena_at, scope_at};
ghost use Rattle.kr_code_lowering.specs.Statements.{Catches};

use crate::numbering::NodeNumbers;
use crate::site::Site;
use crate::types::named_type;
use kr_ast::{Entry, Node};
use kr_classes_table::TypeId;
use kr_code::Catch;
use kr_types::Program;

/// The type that a catch names in what it declares.
pub fn caught_type(program: &Program, site: Site, declared: u32) -> TypeId
    requires program { IsProgram program.now }
    requires site { IsSite program.now site }
    requires declared { declared < length (arena_at program.now site).entries }
    ensures { IsTypeNumber program.now.table.types result (caught_type (scope_at program.now site) (node_tree program.now site.file declared)) }
{
    match site.at(declared).entry(program).node {
        Node::Parameter {
            declared: written,
            ..
        } => named_type(program, site, written),
        _ => named_type(program, site, declared),
    }
}

/// A node as a catch.
pub(crate) fn catch_at(
    program: &Program,
    numbers: &NodeNumbers,
    site: Site,
    entry: Entry,
    declared: u32,
    body: u32,
) -> Catch
    requires program { IsProgram program.now }
    requires numbers { AreNumbers program.now numbers.now }
    requires here { IsHere program.now site entry }
    requires node { entry.node ≡ nodes.Catch declared body }
    ensures { Catches program.now site result }
{
    Catch {
        caught: caught_type(program, site, declared),
        body: site.code_number(program, numbers, body),
    }
}
