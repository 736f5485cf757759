//! Small sources for tests, read to trees and programs.
#![tactic(auto)]

mod sources;
mod unread;

ghost use Rattle.std.specs.Prelude.{◌≡◌, ◌<◌, ◌^◌, ◌∷◌, [], IfOk, length};
ghost use Rattle.kr_ast.specs.Arena.{root};
ghost use Rattle.kr_laws_types.specs.Derivation.{AreClasses};
ghost use Rattle.kr_classes.specs.ClassTables.{IsClassTable};
ghost use Rattle.kr_code_members.specs.Nodes.{AreShaped};
ghost use Rattle.kr_types.specs.Programs.{IsProgram};

use kr_ast::Tree;
use kr_base::NoMemory;
use kr_classes::{ClassTable, classes};
use kr_laws_types::shape_law;
use kr_lex::{Tokens, lex};
use kr_parse::parse;
use kr_types::{Program, check};
pub use sources::{Check, Sources, holds_of};
use std::alloc::Global;
pub use unread::Unread;

fn tokens_of(alloc: Global, file: u32, source: &str) -> Result<Tokens, Unread>
    requires { file < 64 }
    ensures { IfOk result (λ tokens. length tokens.list < 2 ^ 20) }
{
    let bytes = source.as_bytes();
    if bytes.len() >= 1 << 20 {
        return Err(Unread::Refused);
    }
    let tokens = lex(alloc, file, bytes)?;
    if tokens.len() >= 1 << 20 {
        return Err(Unread::Refused);
    }
    Ok(tokens)
}

fn parsed(alloc: Global, tokens: &Tokens) -> Result<Tree, Unread>
    requires { length tokens.now.list < 2 ^ 20 }
    ensures small { IfOk result (λ tree. length tree.entries < 2 ^ 22) }
    ensures shaped { IfOk result (λ tree. AreClasses (root tree)) }
{
    shape_law();
    let tree = parse(alloc, tokens)?;
    Ok(tree)
}

/// The tree of a source, the file of that number.
pub fn tree_of(alloc: Global, file: u32, source: &str) -> Result<Tree, Unread>
    requires { file < 64 }
    ensures small { IfOk result (λ tree. length tree.entries < 2 ^ 22) }
    ensures shaped { IfOk result (λ tree. AreClasses (root tree)) }
{
    let tokens = tokens_of(alloc, file, source)?;
    parsed(alloc, &tokens)
}

fn pair(alloc: Global, first: Tree, second: Tree) -> Result<Vec<Tree>, NoMemory>
    ensures { IfOk result (λ trees. length trees.items ≡ 2) }
{
    Ok(vec![in alloc; first, second]?)
}

/// The trees of two files.
pub fn two_trees(alloc: Global, first: &str, second: &str) -> Result<Vec<Tree>, Unread>
    ensures { IfOk result (λ trees. length trees.items ≡ 2) }
{
    let first = tree_of(alloc, 0, first)?;
    let second = tree_of(alloc, 1, second)?;
    Ok(pair(alloc, first, second)?)
}

fn table_of(alloc: Global, trees: &[Tree]) -> Result<ClassTable, Unread>
    requires { length trees.now < 65 }
    ensures { IfOk result (IsClassTable trees.now) }
{
    let table = classes(alloc, trees)?;
    Ok(table)
}

fn alone(alloc: Global, tree: Tree) -> Result<Vec<Tree>, NoMemory>
    ensures { IfOk result (λ trees. trees.items ≡ tree ∷ []) }
{
    Ok(vec![in alloc; tree]?)
}

fn typed(alloc: Global, tree: Tree) -> Result<Program, Unread>
    requires small { length tree.entries < 2 ^ 22 }
    requires shaped { AreClasses (root tree) }
    ensures program { IfOk result IsProgram }
    ensures shaped { IfOk result AreShaped }
    ensures alone { IfOk result (λ program. length program.trees.items ≡ 1) }
{
    let trees = alone(alloc, tree)?;
    let table = table_of(alloc, trees.as_slice())?;
    let program = check(alloc, trees, table)?;
    Ok(program)
}

/// The program of one source.
pub fn program_of(alloc: Global, source: &str) -> Result<Program, Unread>
    ensures program { IfOk result IsProgram }
    ensures shaped { IfOk result AreShaped }
    ensures alone { IfOk result (λ program. length program.trees.items ≡ 1) }
{
    let tree = tree_of(alloc, 0, source)?;
    typed(alloc, tree)
}
