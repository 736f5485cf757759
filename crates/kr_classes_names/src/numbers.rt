// The numbers of the types that the nodes of all files name.
ghost use Rattle.std.specs.Prelude.{◌≡◌, ◌<◌, ◌≤◌, ◌+◌, List, Some, None, IfOk, length, map};
ghost use Rattle.kr_base.specs.Places.{nowhere};
ghost use Rattle.kr_ast.specs.Arena.{Arena, root};
ghost use Rattle.kr_ast.specs.Tree.{NamedType};
ghost use Rattle.kr_classes_table.specs.Types.{UnknownType};
ghost use Rattle.kr_classes_table.specs.Table.{class_or, headings_of, type_named};
ghost use Rattle.kr_classes_names.specs.Shown.{AreHeads};
ghost use Rattle.kr_ast.specs.Files.{file_at};
ghost use Rattle.kr_classes_names.specs.Types.{Extends, IsTypeNumber};
ghost use Rattle.kr_classes_names.specs.Numbers.{AreFileTypes, AreNodeTypes, AreNumbersOf, named_type, number_in, primitive_named};

use crate::{Heads, TypeForm, Types};
use kr_ast::{Node, Primitive, Tree, tree_of};
use kr_base::NoMemory;
use kr_classes_table::{ClassId, TypeId};
use kr_sparse::Sparse;
use std::alloc::Global;
use std::marker::Model;

/// For each node of each file the number of the type that it names; `void`'s number if it names none, as most do. Contracts see the
/// lists of numbers, file by file.
#[derive(Drop)]
pub struct NodeTypes {
    files: Vec<Sparse<TypeId>>,
}

impl Model for NodeTypes {
    ghost use Rattle.std.specs.Prelude.{List, ℕ, map};

    ghost Value = { List (List ℕ) };

    ghost view = { λ n. map (λ v. v.items) n.files.items };
}

/// The number of a primitive type.
fn primitive_type(types: &Types, primitive: Primitive) -> TypeId
    ensures { IsTypeNumber types.now result (primitive_named primitive) }
{
    match primitive {
        Primitive::Int => types.int(),
        Primitive::Long => types.long(),
        Primitive::Boolean => types.boolean(),
        Primitive::Void => types.void(),
    }
}

/// The number of the type of a class, or of what its name means where no class has it.
fn class_type(
    alloc: Global,
    types: &mut Types,
    class: Option<ClassId>,
    outer: &[u8],
    name: &[u8],
) -> Result<TypeId, NoMemory>
    ensures number { IfOk result (λ n. IsTypeNumber types.new n (class_or class (UnknownType outer.now name.now))) }
    ensures extends { Extends types.old types.new }
{
    match class {
        Some(class) => types.number(TypeForm::Class(class)),
        None => types.unknown(alloc, outer, name),
    }
}

/// The number of the type that a name means.
pub fn type_of_name(
    alloc: Global,
    heads: &Heads,
    types: &mut Types,
    name: &[u8],
) -> Result<TypeId, NoMemory>
    ensures number { (files : List Arena) → AreHeads files heads.now → IfOk result (λ n. IsTypeNumber types.new n (type_named (headings_of (map root files)) (NamedType nowhere name.now))) }
    ensures extends { Extends types.old types.new }
{
    class_type(alloc, types, heads.number_of(name), b"".as_slice(), name)
}

/// The number of the type that a node names, from those of its parts.
fn node_type(
    alloc: Global,
    trees: &[Tree],
    heads: &Heads,
    types: &mut Types,
    file: u32,
    numbers: &Sparse<TypeId>,
    node: u32,
) -> Result<TypeId, NoMemory>
    requires heads { AreHeads trees.now heads.now }
    requires file { file < length trees.now }
    requires node { node < length (file_at trees.now file).entries }
    requires long { node ≤ length numbers.now.items }
    requires numbers { AreNumbersOf trees.now types.old file node numbers.now.items }
    ensures number { IfOk result (λ n. IsTypeNumber types.new n (named_type trees.now file node)) }
    ensures extends { Extends types.old types.new }
{
    let tree = tree_of(trees, file);
    match tree.entry(node).node {
        Node::PrimitiveType { primitive } => Ok(primitive_type(types, primitive)),
        Node::NamedType { name } => {
            let class = heads.class_named(trees, file, node);
            class_type(alloc, types, class, b"".as_slice(), tree.name(name))
        }
        Node::QualifiedType { outer, name } => {
            let class = heads.class_named(trees, file, node);
            class_type(alloc, types, class, tree.name(outer), tree.name(name))
        }
        Node::GenericType { head, argument } => {
            types.applied(numbers.at(head as usize), numbers.at(argument as usize))
        }
        Node::DiamondType { head } => types.applied(numbers.at(head as usize), types.inferred()),
        Node::ArrayType { element } => types.number(TypeForm::Array(numbers.at(element as usize))),
        _ => Ok(types.void()),
    }
}

/// The numbers of the types that the nodes of a file name.
fn file_types(
    alloc: Global,
    trees: &[Tree],
    heads: &Heads,
    types: &mut Types,
    file: u32,
) -> Result<Sparse<TypeId>, NoMemory>
    requires heads { AreHeads trees.now heads.now }
    requires file { file < length trees.now }
    ensures numbers { IfOk result (λ numbers. AreFileTypes trees.now types.new file numbers.items) }
    ensures extends { Extends types.old types.new }
{
    let void = types.void();
    let mut numbers = Sparse::new(alloc, void);
    let nodes = tree_of(trees, file).nodes();
    for node in 0..nodes {
        let number = node_type(alloc, trees, heads, types, file, &numbers, node)?;
        numbers.push(number, number == void)?;
    }
    Ok(numbers)
}

impl NodeTypes {
    /// The numbers of the types that the nodes of these files name; types that are new are added.
    pub fn read(
        alloc: Global,
        trees: &[Tree],
        heads: &Heads,
        types: &mut Types,
    ) -> Result<NodeTypes, NoMemory>
        requires few { length trees.now < 65 }
        requires heads { AreHeads trees.now heads.now }
        ensures numbers { IfOk result (λ numbers. AreNodeTypes trees.now types.new numbers) }
        ensures extends { Extends types.old types.new }
    {
        let mut files = Vec::new(alloc);
        let count = trees.len() as u32;
        for file in 0..count {
            let numbers = file_types(alloc, trees, heads, types, file)?;
            files.push(numbers)?;
        }
        let _void = types.void();
        Ok(NodeTypes { files })
    }

    /// The number of the type that a node names; that of what has no value where there is no such node.
    pub fn number(&self, file: u32, node: u32) -> TypeId
        ensures { result ≡ number_in self.now file node }
    {
        match self.files.get(file as usize) {
            None => 3,
            Some(numbers) => {
                let at = node as usize;
                if at < numbers.len() {
                    numbers.at(at)
                } else {
                    3
                }
            }
        }
    }
}
