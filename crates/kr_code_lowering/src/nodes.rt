// The nodes of the code: those of the files that have code, one file after another.
ghost use Rattle.std.specs.Prelude.{◌≡◌, ◌+◌, ◌<◌, ◌^◌, suc, All, IfOk, Some, codes, length, slice_get};
ghost use Rattle.kr_code_lowering.specs.Vocabulary.{count, IsGrown, IsProgram};
ghost use Rattle.kr_code_lowering.specs.Origins.{coded_count, first_node};
ghost use Rattle.kr_code_lowering.specs.Numbered.{AreNumbers, IsCodedTo};
ghost use Rattle.kr_code_lowering.specs.Sites.{IsSite, number_at};
ghost use Rattle.kr_code_lowering.specs.Resolving.{AreNodes, IsNode};

use crate::catches::catch_at;
use crate::coding::{has_code, is_no_expression};
use crate::declarators::declarator_at;
use crate::expressions::expression_at;
use crate::links::Links;
use crate::names::Names;
use crate::numbering::NodeNumbers;
use crate::site::Site;
use crate::statements::statement_at;
use kr_ast::{Node as TreeNode, tree_of};
use kr_base::NoMemory;
use kr_classes_table::TypeId;
use kr_code::Node;
use kr_types::Program;
use std::alloc::Global;

/// A node of a file as one of the code.
fn node_at(
    alloc: Global,
    program: &Program,
    numbers: &NodeNumbers,
    arrays: &[TypeId],
    names: &mut Names,
    links: &mut Links,
    site: Site,
) -> Result<Node, NoMemory>
    requires program { IsProgram program.now }
    requires numbers { AreNumbers program.now numbers.now }
    requires arrays { All (λ t. t < count program.now.table.types) arrays.now }
    requires few { length arrays.now < 2 ^ 32 }
    requires site { IsSite program.now site }
    ensures names { IsGrown names.old names.new }
    ensures links { IsGrown links.old links.new }
    ensures resolves { IfOk result (IsNode program.now arrays.now names.new links.new (number_at program.now site site.node)) }
{
    let entry = site.entry(program);
    match entry.node {
        TreeNode::Declarator { name, initial } => {
            let declarator = declarator_at(program, numbers, site, entry, name, initial)?;
            Ok(Node::Declarator(declarator))
        }
        TreeNode::Catch { declared, body } => Ok(Node::Catch(catch_at(
            program, numbers, site, entry, declared, body,
        ))),
        _ => {
            if is_no_expression(entry.node) {
                Ok(Node::Statement(statement_at(program, numbers, links, site)?))
            } else {
                Ok(Node::Expression(expression_at(
                    alloc, program, numbers, arrays, names, links, site,
                )?))
            }
        }
    }
}

/// Adds a node of a file, if it has code, after those before it.
fn add_node(
    alloc: Global,
    program: &Program,
    numbers: &NodeNumbers,
    arrays: &[TypeId],
    names: &mut Names,
    links: &mut Links,
    site: Site,
    nodes: &mut Vec<Node>,
) -> Result<(), NoMemory>
    requires program { IsProgram program.now }
    requires numbers { AreNumbers program.now numbers.now }
    requires arrays { All (λ t. t < count program.now.table.types) arrays.now }
    requires few { length arrays.now < 2 ^ 32 }
    requires site { IsSite program.now site }
    requires before { IsCodedTo program.now (site.first + site.node) (length nodes.old.items) }
    requires nodes { AreNodes program.now arrays.now names.old links.old nodes.old.items }
    ensures names { IsGrown names.old names.new }
    ensures links { IsGrown links.old links.new }
    ensures before { IfOk result (λ none. IsCodedTo program.now (suc (site.first + site.node)) (length nodes.new.items)) }
    ensures nodes { IfOk result (λ none. AreNodes program.now arrays.now names.new links.new nodes.new.items) }
{
    let entry = site.entry(program);
    if !has_code(entry.node) {
        return Ok(());
    }
    let made = node_at(alloc, program, numbers, arrays, names, links, site)?;
    nodes.push(made)?;
    Ok(())
}

/// Adds the nodes of a file that have code after those of the files before it.
fn add_file(
    alloc: Global,
    program: &Program,
    numbers: &NodeNumbers,
    arrays: &[TypeId],
    names: &mut Names,
    links: &mut Links,
    first: u32,
    file: u32,
    nodes: &mut Vec<Node>,
) -> Result<(), NoMemory>
    requires program { IsProgram program.now }
    requires numbers { AreNumbers program.now numbers.now }
    requires arrays { All (λ t. t < count program.now.table.types) arrays.now }
    requires few { length arrays.now < 2 ^ 32 }
    requires file { file < length program.now.trees.items }
    requires first { first ≡ first_node program.now.trees.items file }
    requires before { IsCodedTo program.now first (length nodes.old.items) }
    requires nodes { AreNodes program.now arrays.now names.old links.old nodes.old.items }
    ensures names { IsGrown names.old names.new }
    ensures links { IsGrown links.old links.new }
    ensures before { IfOk result (λ none. IsCodedTo program.now (first_node program.now.trees.items (suc file)) (length nodes.new.items)) }
    ensures nodes { IfOk result (λ none. AreNodes program.now arrays.now names.new links.new nodes.new.items) }
{
    let entries = tree_of(&program.trees, file).nodes();
    for node in 0..entries {
        let site = Site { file, node, first };
        add_node(alloc, program, numbers, arrays, names, links, site, nodes)?;
    }
    Ok(())
}

/// The nodes of a program's files as nodes of code, the links of their lists, and the names of the fields that they access.
#[derive(Drop)]
pub struct ResolvedNodes {
    pub nodes: Vec<Node>,
    pub links: Links,
    pub names: Names,
}

/// The nodes of a program that have code, with its fields and methods and these array types by number. There is room for some
/// more, which come from initial values and conditions.
pub fn resolve_nodes(
    alloc: Global,
    program: &Program,
    numbers: &NodeNumbers,
    arrays: &[TypeId],
) -> Result<ResolvedNodes, NoMemory>
    requires program { IsProgram program.now }
    requires numbers { AreNumbers program.now numbers.now }
    requires arrays { All (λ t. t < count program.now.table.types) arrays.now }
    requires few { length arrays.now < 2 ^ 32 }
    ensures count { IfOk result (λ r. length r.nodes.items ≡ coded_count program.now) }
    ensures nodes { IfOk result (λ r. AreNodes program.now arrays.now r.names r.links r.nodes.items) }
    ensures names { IfOk result (λ r. slice_get r.names 0 ≡ Some (codes "length")) }
{
    let mut names = Names::new(alloc)?;
    let mut links = Links::new(alloc);
    let mut nodes = Vec::with_capacity(alloc, numbers.coded as usize + 64)?;
    let mut first = 0;
    let files = program.trees.len() as u32;
    for file in 0..files {
        add_file(
            alloc, program, numbers, arrays, &mut names, &mut links, first, file, &mut nodes,
        )?;
        first += tree_of(&program.trees, file).nodes();
    }
    Ok(ResolvedNodes {
        nodes,
        links,
        names,
    })
}
