// The meaning of class names.
ghost use Rattle.std.specs.Prelude.{◌≡◌, ◌<◌, ◌^◌, List, Some, None, IfOk, length, map, All};
ghost use Rattle.kr_ast.specs.Arena.{Arena, root, tree_in};
ghost use Rattle.kr_classes_table.specs.Table.{class_named, headings_of, number_of};
ghost use Rattle.kr_classes_names.specs.Listed.{IsIndexOf};
ghost use Rattle.kr_classes_names.specs.Shown.{count_of, heading_shown, name_shown, superclass_in, AreHeads, IsHeading};
ghost use Rattle.kr_ast.specs.Files.{file_at};

use crate::headings::{Heading, all_headings};
use crate::names::Index;
use kr_ast::{Node, Tree, tree_of};
use kr_base::NoMemory;
use kr_classes_table::ClassId;
use std::alloc::Global;

/// The heads of all classes, and which class a name means.
#[derive(Drop)]
pub struct Heads {
    pub(crate) headings: Vec<Heading>,
    pub(crate) index: Index,
}

/// The classes by their names.
fn class_index(alloc: Global, trees: &[Tree], headings: &[Heading]) -> Result<Index, NoMemory>
    requires stands { All (IsHeading trees.now) headings.now }
    requires few { length headings.now < 2 ^ 32 }
    ensures { IfOk result (λ index. IsIndexOf (map (name_shown trees.now) headings.now) index) }
{
    let mut index = Index::new(alloc);
    for (class, heading) in headings.iter().enumerate() {
        let name = tree_of(trees, heading.file).name(heading.name);
        index.add(alloc, name, class as u32)?;
    }
    Ok(index)
}

impl Heads {
    /// The heads of the classes of these files.
    pub fn read(alloc: Global, trees: &[Tree]) -> Result<Heads, NoMemory>
        requires { length trees.now < 65 }
        ensures { IfOk result (λ heads. AreHeads trees.now heads) }
    {
        let headings = all_headings(alloc, trees)?;
        let count = headings.len();
        if count >= 0xffff_ffff {
            return Err(NoMemory::at_limit(headings.as_slice()));
        }
        let index = class_index(alloc, trees, &headings)?;
        Ok(Heads { headings, index })
    }

    /// The heads of the classes, by their numbers.
    pub fn headings(&self) -> &[Heading]
        ensures count { length result.now ≡ count_of self.now }
        ensures stands { (files : List Arena) → AreHeads files self.now → All (IsHeading files) result.now }
        ensures shown { (files : List Arena) → AreHeads files self.now → map (heading_shown files) result.now ≡ headings_of (map root files) }
    {
        self.headings.as_slice()
    }

    /// How many classes there are.
    pub fn len(&self) -> usize
        ensures count { result ≡ count_of self.now }
        ensures all { (files : List Arena) → AreHeads files self.now → result ≡ length (headings_of (map root files)) }
    {
        self.headings.len()
    }

    /// The class of a name.
    pub fn number_of(&self, name: &[u8]) -> Option<ClassId>
        ensures { (files : List Arena) → AreHeads files self.now → result ≡ number_of (headings_of (map root files)) name.now }
    {
        self.index.find(name)
    }

    /// The class that a type's node means.
    pub fn class_named(&self, trees: &[Tree], file: u32, node: u32) -> Option<ClassId>
        requires heads { AreHeads trees.now self.now }
        requires file { file < length trees.now }
        requires node { node < length (file_at trees.now file).entries }
        ensures { result ≡ class_named (headings_of (map root trees.now)) (tree_in (file_at trees.now file) node) }
    {
        let tree = tree_of(trees, file);
        match tree.entry(node).node {
            Node::NamedType { name } => self.number_of(tree.name(name)),
            Node::QualifiedType { outer, name } => {
                let class = self.number_of(tree.name(name))?;
                let outer_class = self.number_of(tree.name(outer))?;
                match self.headings[class as usize].outer {
                    None => None,
                    Some(found) => {
                        if found == outer_class {
                            Some(class)
                        } else {
                            None
                        }
                    }
                }
            }
            _ => None,
        }
    }
}

/// The superclass of each class.
pub fn superclasses(
    alloc: Global,
    trees: &[Tree],
    heads: &Heads,
) -> Result<Vec<Option<ClassId>>, NoMemory>
    requires { AreHeads trees.now heads.now }
    ensures { IfOk result (λ supers. supers.items ≡ map (superclass_in (headings_of (map root trees.now))) (headings_of (map root trees.now))) }
{
    let mut supers = Vec::new(alloc);
    for heading in heads.headings.iter() {
        supers.push(heads.class_named(trees, heading.file, heading.extended))?;
    }
    Ok(supers)
}
