// The part of a program that the typing rules read.

use kr_ast::Tree;
use kr_classes_members::Members;
use kr_classes_names::{NodeTypes, Types};

/// The classes of a program, with types by number: the trees of its files, all types, the members of the classes, and the
/// types that nodes name.
#[derive(Clone, Copy)]
pub struct ClassTypes<'a> {
    pub trees: &'a [Tree],
    pub types: &'a Types,
    pub members: &'a Members,
    pub node_types: &'a NodeTypes,
}
