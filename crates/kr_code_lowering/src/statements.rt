// Nodes as statements.
ghost use Rattle.std.specs.Prelude.{◌≡◌, ◌<◌, List, ℕ, IfOk};
ghost use Rattle.kr_ast.specs.declared.node.Node.TheVariants as nodes;
ghost use Rattle.kr_code_lowering.specs.Vocabulary.{IsGrown, IsProgram};
ghost use Rattle.kr_code_lowering.specs.Numbered.{AreNumbers};
ghost use Rattle.kr_code_lowering.specs.Sites.{IsHere, IsSite, number_at, tree_at};
ghost use Rattle.kr_code_lowering.specs.Statements.{Does, IsMaybe};

use crate::links::Links;
use crate::lists::list_links;
use crate::numbering::NodeNumbers;
use crate::plain::{is_plain, plain_statement};
use crate::site::Site;
use kr_ast::{Entry, Node};
use kr_base::NoMemory;
use kr_code::Statement;
use kr_types::Program;

/// The number of a part that may be absent.
pub(crate) fn maybe_part(program: &Program, numbers: &NodeNumbers, part: Site) -> Option<u32>
    requires program { IsProgram program.now }
    requires numbers { AreNumbers program.now numbers.now }
    requires site { IsSite program.now part }
    ensures { IsMaybe (tree_at program.now part) (number_at program.now part part.node) result }
{
    match part.entry(program).node {
        Node::Nil => None,
        _ => Some(part.code_number(program, numbers, part.node)),
    }
}

/// A block as a statement.
fn block_statement(
    program: &Program,
    numbers: &NodeNumbers,
    links: &mut Links,
    site: Site,
    entry: Entry,
    statements: u32,
) -> Result<Statement, NoMemory>
    requires program { IsProgram program.now }
    requires numbers { AreNumbers program.now numbers.now }
    requires here { IsHere program.now site entry }
    requires node { entry.node ≡ nodes.Block statements }
    ensures grown { IsGrown links.old links.new }
    ensures does { (names : List (List ℕ)) → IfOk result (Does program.now site names links.new) }
{
    let nodes = list_links(program, numbers, site.at(statements), links)?;
    Ok(Statement::Block(nodes))
}

/// A `try` as a statement.
fn try_statement(
    program: &Program,
    numbers: &NodeNumbers,
    links: &mut Links,
    site: Site,
    entry: Entry,
    body: u32,
    catches: u32,
) -> Result<Statement, NoMemory>
    requires program { IsProgram program.now }
    requires numbers { AreNumbers program.now numbers.now }
    requires here { IsHere program.now site entry }
    requires node { entry.node ≡ nodes.Try body catches }
    ensures grown { IsGrown links.old links.new }
    ensures does { (names : List (List ℕ)) → IfOk result (Does program.now site names links.new) }
{
    let nodes = list_links(program, numbers, site.at(catches), links)?;
    Ok(Statement::Try {
        body: site.code_number(program, numbers, body),
        catches: nodes,
    })
}

/// A declaration of locals as a statement.
fn local_statement(
    program: &Program,
    numbers: &NodeNumbers,
    links: &mut Links,
    site: Site,
    entry: Entry,
    declared: u32,
    declarators: u32,
) -> Result<Statement, NoMemory>
    requires program { IsProgram program.now }
    requires numbers { AreNumbers program.now numbers.now }
    requires here { IsHere program.now site entry }
    requires node { entry.node ≡ nodes.Local declared declarators }
    ensures grown { IsGrown links.old links.new }
    ensures does { (names : List (List ℕ)) → IfOk result (Does program.now site names links.new) }
{
    let nodes = list_links(program, numbers, site.at(declarators), links)?;
    Ok(Statement::Declare(nodes))
}

/// A `for` as a statement.
fn for_statement(
    program: &Program,
    numbers: &NodeNumbers,
    links: &mut Links,
    site: Site,
    entry: Entry,
    initial: u32,
    condition: u32,
    updates: u32,
    body: u32,
) -> Result<Statement, NoMemory>
    requires program { IsProgram program.now }
    requires numbers { AreNumbers program.now numbers.now }
    requires here { IsHere program.now site entry }
    requires node { entry.node ≡ nodes.For initial condition updates body }
    ensures grown { IsGrown links.old links.new }
    ensures does { (names : List (List ℕ)) → IfOk result (Does program.now site names links.new) }
{
    let before = list_links(program, numbers, site.at(initial), links)?;
    let behind = list_links(program, numbers, site.at(updates), links)?;
    Ok(Statement::For {
        initial: before,
        condition: maybe_part(program, numbers, site.at(condition)),
        updates: behind,
        body: site.code_number(program, numbers, body),
    })
}

/// A `return` as a statement.
fn return_statement(
    program: &Program,
    numbers: &NodeNumbers,
    site: Site,
    entry: Entry,
    value: u32,
) -> Statement
    requires program { IsProgram program.now }
    requires numbers { AreNumbers program.now numbers.now }
    requires here { IsHere program.now site entry }
    requires node { entry.node ≡ nodes.Return value }
    ensures { (names : List (List ℕ)) (links : List ℕ) → Does program.now site names links result }
{
    match maybe_part(program, numbers, site.at(value)) {
        None => Statement::Leave,
        Some(number) => Statement::Return(number),
    }
}

/// A node as a statement; one that is none has no meaning.
pub(crate) fn statement_at(
    program: &Program,
    numbers: &NodeNumbers,
    links: &mut Links,
    site: Site,
) -> Result<Statement, NoMemory>
    requires program { IsProgram program.now }
    requires numbers { AreNumbers program.now numbers.now }
    requires site { IsSite program.now site }
    ensures grown { IsGrown links.old links.new }
    ensures does { (names : List (List ℕ)) → IfOk result (Does program.now site names links.new) }
{
    let entry = site.entry(program);
    if is_plain(entry.node) {
        return Ok(plain_statement(program, numbers, site, entry.node));
    }
    match entry.node {
        Node::Block { statements } => block_statement(
            program, numbers, links, site, entry, statements,
        ),
        Node::Try { body, catches } => try_statement(
            program, numbers, links, site, entry, body, catches,
        ),
        Node::Local {
            declared,
            declarators,
        } => local_statement(program, numbers, links, site, entry, declared, declarators),
        Node::For {
            initial,
            condition,
            updates,
            body,
        } => for_statement(
            program, numbers, links, site, entry, initial, condition, updates, body,
        ),
        Node::Return { value } => Ok(return_statement(program, numbers, site, entry, value)),
        _ => Ok(Statement::Stuck),
    }
}
